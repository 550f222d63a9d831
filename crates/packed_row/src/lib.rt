// Propagate a row (01's visit) that is packed in words, one for each variable: the coefficient and the number of zeros
// that follow it. A sweep goes from coefficient to coefficient, and no index is read from the words: whatever they are,
// it stays in the row and ends. Crate `sweep` does the same with steps beside the coefficients.
#![tactic(auto)]

ghost use Rattle.std.specs.Prelude.{cond, ◌≡◌, ◌*◌, ◌+◌, ◌<◌, ◌*ℤ◌, pos, length};
ghost use Rattle.std.specs.Int.Signed.{lt_z};
ghost use Rattle.integer.specs.Range.{Within};
ghost use Rattle.model.specs.Box.{lower, upper};
ghost use Rattle.model.specs.Limits.{bound_size, coef_size, max_variables};
ghost use Rattle.model.specs.Rows.{row_with};
ghost use Rattle.row.specs.Activity.{min_activity, min_term, term_width, widest_term};
ghost use Rattle.row.specs.Answers.{propagated_row_of};
ghost use Rattle.row.specs.Kinds.{propagate_row_of, row_moves_of, signed};
ghost use Rattle.row.specs.Moved.{moved_bounds};
ghost use Rattle.row.specs.Propagation.{implied_box, propagate_row, row_moves};
ghost use Rattle.row.specs.ValidRow.{IsSign, ImpliesBox, ValidCoefs, ValidRow};
ghost use Rattle.packed_row.specs.Words.{Readable, coef_of, coefs_from, rhs_of, row_of_words};

use model::{MAX_COEF, MAX_RHS};
use row::propagation::RowPropagation;
use row_activity::Reach;
use row_bounds::tighten_bounds_at;
use row_propagation::both;

// The greatest coefficient and the greatest right side, raised so that the least is 0.
const RAISED_COEF: u32 = 2 * (MAX_COEF as u32);

const RAISED_RHS: u32 = 2 * (MAX_RHS as u32);

// The coefficient in a word; one that is out of range is 0.
fn coef(word: u32) -> i32
    ensures { result ≡ coef_of word }
{
    let c = word / 128;
    let is_out = RAISED_COEF < c;
    if is_out {
        return 0;
    }
    (c as i32) - MAX_COEF
}

// 1 where the coefficient is below 0, else 0.
fn is_negative(a: i32) -> usize
    ensures { result ≡ cond (lt_z a (pos 0)) 1 0 }
{
    usize::from(a < 0)
}

fn product(a: i32, x: i32) -> i64
    requires { Within coef_size a × Within bound_size x }
    ensures { result ≡ a *ℤ x }
{
    i64::from(a) * i64::from(x)
}

// The least of a · x over the bounds of variable j, and how far the greatest lies above it. The least is at the lower
// bound for a above 0, at the upper for a below 0, and the greatest at the other one: which place is read is counted,
// so that no branch has to be foreseen.
fn term_reach(a: i32, bounds: &[i32], j: usize) -> Reach
    requires { (j < max_variables) × (2 * j + 1 < length bounds.now) × Within coef_size a
        × Within bound_size (lower bounds.now j) × Within bound_size (upper bounds.now j) }
    ensures least { let B = bounds.now in
        result.least ≡ min_term a (lower B j) (upper B j) }
    ensures width { let B = bounds.now in
        result.widest ≡ term_width a (lower B j) (upper B j) }
{
    let near = 2 * j + is_negative(a);
    let least = product(a, bounds[near]);
    let most = product(a, bounds[4 * j + 1 - near]);
    Reach {
        least: least,
        widest: most - least,
    }
}

// Lmin and the width of the widest term, of the row itself (sign 1) or of its negated form (sign −1).
fn reach_packed(words: &[u32], sign: i32, bounds: &[i32]) -> Reach
    requires valid_coefs { ValidCoefs (length words.now) (coefs_from words.now 0) bounds.now }
    requires sign { IsSign sign }
    ensures least { let W = words.now in
        result.least ≡ min_activity (length W) (signed sign (coefs_from W 0)) bounds.now }
    ensures widest { let W = words.now in
        result.widest ≡ widest_term (length W) (signed sign (coefs_from W 0)) bounds.now }
{
    let mut least: i64 = 0;
    let mut widest: i64 = 0;
    let mut j: usize = 0;
    // From word to word that is read: the step is not 1.
    while j < words.len() {
        let word = words[j];
        let a = sign * coef(word);
        let reach = term_reach(a, bounds, j);
        least += reach.least;
        widest = widest.max(reach.widest);
        j += 1 + (word % 128) as usize;
    }
    Reach { least, widest }
}

// Gives each variable the bounds that the form implies, and says how many moved: at most one of each variable.
fn tighten_bounds_packed(words: &[u32], sign: i32, b: i64, least: i64, bounds: &mut [i32]) -> u32
    requires implies_box { ImpliesBox (length words.now) (coefs_from words.now 0) b least bounds.old }
    requires sign { IsSign sign }
    ensures left { let W = words.now in
        bounds.new
        ≡ implied_box (length W) (signed sign (coefs_from W 0)) b least bounds.old }
    ensures moved { let W = words.now in
        let B = bounds.old in
        result ≡ moved_bounds (length W) B (implied_box (length W) (signed sign (coefs_from W 0)) b least B) }
{
    let mut moved: u32 = 0;
    let mut j: usize = 0;
    // From word to word that is read: the step is not 1.
    while j < words.len() {
        let word = words[j];
        if tighten_bounds_at(sign * coef(word), b, least, bounds, j) {
            moved += 1;
        }
        j += 1 + (word % 128) as usize;
    }
    moved
}

// Propagates a form of the row.
fn propagate_form_packed(words: &[u32], sign: i32, b: i32, bounds: &mut [i32]) -> RowPropagation
    requires valid_row { ValidRow (length words.now) (coefs_from words.now 0) b bounds.old }
    requires sign { IsSign sign }
    ensures { let W = words.now in
        propagated_row_of result bounds.new
        ≡ propagate_row (length W) (signed sign (coefs_from W 0)) b bounds.old }
{
    if boxes::is_empty(bounds) {
        return RowPropagation::Infeasible;
    }
    let rhs = b as i64;
    let r = reach_packed(words, sign, bounds);
    let least = r.least;
    if r.widest <= rhs - least {
        return RowPropagation::Unchanged;
    }
    if rhs < least {
        boxes::make_empty(bounds);
        return RowPropagation::Infeasible;
    }
    RowPropagation::Tightened(tighten_bounds_packed(words, sign, rhs, least, bounds))
}

// Propagates the row with the given right side: an = row (kind 1) by its ≤ form and then, on the box that it left, by
// its negated form.
fn propagate_forms(words: &[u32], b: i32, kind: u32, bounds: &mut [i32]) -> RowPropagation
    requires { ValidRow (length words.now) (coefs_from words.now 0) b bounds.old }
    ensures { let W = words.now in
        propagated_row_of result bounds.new
        ≡ propagate_row_of (length W) (row_with (coefs_from W 0) b kind) bounds.old }
{
    let first = propagate_form_packed(words, 1, b, bounds);
    if kind != 1 {
        return first;
    }
    let RowPropagation::Infeasible = first else {
        return both(first, propagate_form_packed(words, -1, -b, bounds));
    };
    first
}

// The right side in a word beside its kind; one that is out of range is 0.
fn right_side(rhs_word: u32) -> i32
    ensures { result ≡ rhs_of rhs_word }
{
    let b = rhs_word / 2;
    if RAISED_RHS < b {
        return 0;
    }
    (b as i32) - MAX_RHS
}

// Propagates the row that the words and the word of its right side say.
pub fn propagate_row_packed(words: &[u32], rhs_word: u32, bounds: &mut [i32]) -> RowPropagation
    requires { Readable words.now bounds.old }
    ensures { let W = words.now in
        propagated_row_of result bounds.new
        ≡ propagate_row_of (length W) (row_of_words W rhs_word) bounds.old }
{
    propagate_forms(words, right_side(rhs_word), rhs_word % 2, bounds)
}

// Whether propagating the form would answer other than Unchanged; nothing is written.
fn form_moves_packed(words: &[u32], sign: i32, b: i32, bounds: &[i32]) -> bool
    requires valid_row { ValidRow (length words.now) (coefs_from words.now 0) b bounds.now }
    requires sign { IsSign sign }
    ensures { let W = words.now in
        result ≡ row_moves (length W) (signed sign (coefs_from W 0)) b bounds.now }
{
    if boxes::is_empty(bounds) {
        return true;
    }
    let r = reach_packed(words, sign, bounds);
    (b as i64) - r.least < r.widest
}

// Whether propagating the row with the given right side would answer other than Unchanged; nothing is written.
fn forms_move(words: &[u32], b: i32, kind: u32, bounds: &[i32]) -> bool
    requires { ValidRow (length words.now) (coefs_from words.now 0) b bounds.now }
    ensures { let W = words.now in
        result ≡ row_moves_of (length W) (row_with (coefs_from W 0) b kind) bounds.now }
{
    if form_moves_packed(words, 1, b, bounds) {
        return true;
    }
    if kind != 1 {
        return false;
    }
    form_moves_packed(words, -1, -b, bounds)
}

// The same of the row that the words and the word of its right side say.
pub fn row_moves_packed(words: &[u32], rhs_word: u32, bounds: &[i32]) -> bool
    requires { Readable words.now bounds.now }
    ensures { let W = words.now in
        result ≡ row_moves_of (length W) (row_of_words W rhs_word) bounds.now }
{
    forms_move(words, right_side(rhs_word), rhs_word % 2, bounds)
}

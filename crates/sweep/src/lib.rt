// Propagate a row (01's visit) by its steps: each sweep passes over the coefficients that are 0, which add nothing and
// move nothing. A row's kind is the byte that C lends, 1 for an = row, and each contract answers for every byte.
#![tactic(auto)]

ghost use Rattle.std.specs.Prelude.{◌≡◌, length};
ghost use Rattle.row.specs.Activity.{min_activity, widest_term};
ghost use Rattle.row.specs.Answers.{propagated_row_of};
ghost use Rattle.row.specs.Moved.{moved_bounds};
ghost use Rattle.row.specs.Propagation.{implied_box, propagate_row, row_moves};
ghost use Rattle.sweep.specs.Steps.{Steps};
ghost use Rattle.row.specs.Kinds.{propagate_row_of, row_moves_of, signed};
ghost use Rattle.row.specs.ValidRow.{IsSign, ValidCoefs, ValidRow, ImpliesBox};
ghost use Rattle.model.specs.Rows.{row_with};

use row::propagation::RowPropagation;
use row_activity::{Reach, term, wider};
use row_bounds::tighten_bounds_at;
use row_propagation::both;

// Lmin and the width of the widest term, of the row itself (sign 1) or of its negated form (sign −1).
fn reach_by(coefs: &[i32], steps: &[u8], sign: i32, bounds: &[i32]) -> Reach
    requires valid_coefs { ValidCoefs (length coefs.now) coefs.now bounds.now }
    requires steps { Steps (length coefs.now) coefs.now steps.now }
    requires sign { IsSign sign }
    ensures least { let A = coefs.now in
        result.least ≡ min_activity (length A) (signed sign A) bounds.now }
    ensures widest { let A = coefs.now in
        result.widest ≡ widest_term (length A) (signed sign A) bounds.now }
{
    let mut least: i64 = 0;
    let mut widest: i64 = 0;
    let mut j: usize = 0;
    // A `while`: the step passes over zeros, and is not always 1.
    while j < coefs.len() {
        let a = sign * coefs[j];
        let low = bounds[2 * j];
        let high = bounds[2 * j + 1];
        least += term(a, low, high);
        widest = wider(widest, a, low, high);
        j += steps[j] as usize;
    }
    Reach { least, widest }
}

// Whether propagating the form would answer other than Unchanged; nothing is written.
fn form_moves_by(coefs: &[i32], steps: &[u8], sign: i32, b: i32, bounds: &[i32]) -> bool
    requires valid_row { ValidRow (length coefs.now) coefs.now b bounds.now }
    requires steps { Steps (length coefs.now) coefs.now steps.now }
    requires sign { IsSign sign }
    ensures { let A = coefs.now in
        result ≡ row_moves (length A) (signed sign A) b bounds.now }
{
    if boxes::is_empty(bounds) {
        return true;
    }
    let r = reach_by(coefs, steps, sign, bounds);
    (b as i64) - r.least < r.widest
}

// Whether propagating the row would answer other than Unchanged; nothing is written.
pub fn moves_by(coefs: &[i32], steps: &[u8], b: i32, kind: u8, bounds: &[i32]) -> bool
    requires valid_row { ValidRow (length coefs.now) coefs.now b bounds.now }
    requires steps { Steps (length coefs.now) coefs.now steps.now }
    ensures { let A = coefs.now in
        result ≡ row_moves_of (length A) (row_with A b kind) bounds.now }
{
    if form_moves_by(coefs, steps, 1, b, bounds) {
        return true;
    }
    if kind != 1 {
        return false;
    }
    form_moves_by(coefs, steps, -1, -b, bounds)
}

// Gives each variable the bounds that the form implies, and says how many moved: at most one of each variable.
fn tighten_bounds_by(
    coefs: &[i32],
    steps: &[u8],
    sign: i32,
    b: i64,
    least: i64,
    bounds: &mut [i32],
) -> u32
    requires implies_box { ImpliesBox (length coefs.now) coefs.now b least bounds.old }
    requires steps { Steps (length coefs.now) coefs.now steps.now }
    requires sign { IsSign sign }
    ensures left { let A = coefs.now in
        bounds.new ≡ implied_box (length A) (signed sign A) b least bounds.old }
    ensures moved { let A = coefs.now in
        let B = bounds.old in
        result ≡ moved_bounds (length A) B (implied_box (length A) (signed sign A) b least B) }
{
    let mut moved: u32 = 0;
    let mut j: usize = 0;
    // A `while`: the step passes over zeros, and is not always 1.
    while j < coefs.len() {
        if tighten_bounds_at(sign * coefs[j], b, least, bounds, j) {
            moved += 1;
        }
        j += steps[j] as usize;
    }
    moved
}

// Propagates a form of the row.
fn propagate_form_by(
    coefs: &[i32],
    steps: &[u8],
    sign: i32,
    b: i32,
    bounds: &mut [i32],
) -> RowPropagation
    requires valid_row { ValidRow (length coefs.now) coefs.now b bounds.old }
    requires steps { Steps (length coefs.now) coefs.now steps.now }
    requires sign { IsSign sign }
    ensures { let A = coefs.now in
        propagated_row_of result bounds.new ≡ propagate_row (length A) (signed sign A) b bounds.old }
{
    if boxes::is_empty(bounds) {
        return RowPropagation::Infeasible;
    }
    let rhs = b as i64;
    let r = reach_by(coefs, steps, sign, bounds);
    let least = r.least;
    if r.widest <= rhs - least {
        return RowPropagation::Unchanged;
    }
    if rhs < least {
        boxes::make_empty(bounds);
        return RowPropagation::Infeasible;
    }
    RowPropagation::Tightened(tighten_bounds_by(coefs, steps, sign, rhs, least, bounds))
}

// Propagates the row: an = row (kind 1) by its ≤ form and then, on the box that it left, by its negated form.
pub fn propagate_row_by(
    coefs: &[i32],
    steps: &[u8],
    b: i32,
    kind: u8,
    bounds: &mut [i32],
) -> RowPropagation
    requires valid_row { ValidRow (length coefs.now) coefs.now b bounds.old }
    requires steps { Steps (length coefs.now) coefs.now steps.now }
    ensures { let A = coefs.now in
        propagated_row_of result bounds.new
        ≡ propagate_row_of (length A) (row_with A b kind) bounds.old }
{
    let first = propagate_form_by(coefs, steps, 1, b, bounds);
    if kind != 1 {
        return first;
    }
    let RowPropagation::Infeasible = first else {
        return both(first, propagate_form_by(coefs, steps, -1, -b, bounds));
    };
    first
}

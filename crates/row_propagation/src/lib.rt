// Propagate a row (01's visit): one sweep tells whether anything moves, a second one moves it. A row's kind is the byte
// that C lends, 1 for an = row, and each contract answers for every byte. A form's sign is a factor, 1 or −1.
#![tactic(auto)]

ghost use Rattle.std.specs.Prelude.{◌≡◌, ◌<◌, ◌+◌, length};
ghost use Rattle.model.specs.Rows.{row_with};
ghost use Rattle.row.specs.Answers.{BothForms, both_forms, propagated_row_of};
ghost use Rattle.row.specs.Propagation.{propagate_row, row_moves};
ghost use Rattle.row.specs.Kinds.{propagate_row_of, row_moves_of, signed};
ghost use Rattle.row.specs.ValidRow.{IsSign, ValidRow};

use row::propagation::RowPropagation;
use row_activity::reach_of;
use row_bounds::tighten_bounds;

// Whether propagating the form would answer other than Unchanged: the same sweep, and nothing is written. A form that
// cannot be met has b − least below 0, so one comparison tells both.
fn form_moves(coefs: &[i32], sign: i32, b: i32, bounds: &[i32]) -> bool
    requires valid_row { ValidRow (length coefs.now) coefs.now b bounds.now }
    requires sign { IsSign sign }
    ensures { let A = coefs.now in
        result ≡ row_moves (length A) (signed sign A) b bounds.now }
{
    if boxes::is_empty(bounds) {
        return true;
    }
    let r = reach_of(coefs, sign, bounds);
    (b as i64) - r.least < r.widest
}

// Whether propagating the row would answer other than Unchanged. Where the ≤ form of an = row moves nothing, its
// negated form is propagated in the same box.
pub fn moves(coefs: &[i32], b: i32, kind: u8, bounds: &[i32]) -> bool
    requires { ValidRow (length coefs.now) coefs.now b bounds.now }
    ensures { let A = coefs.now in
        result ≡ row_moves_of (length A) (row_with A b kind) bounds.now }
{
    if form_moves(coefs, 1, b, bounds) {
        return true;
    }
    if kind != 1 {
        return false;
    }
    form_moves(coefs, -1, -b, bounds)
}

// Propagates a form of the row. Infeasible leaves the empty box in whole: the bounds are only touched
// once the form is known to be met.
fn propagate_form(coefs: &[i32], sign: i32, b: i32, bounds: &mut [i32]) -> RowPropagation
    requires valid_row { ValidRow (length coefs.now) coefs.now b bounds.old }
    requires sign { IsSign sign }
    ensures { let A = coefs.now in
        propagated_row_of result bounds.new ≡ propagate_row (length A) (signed sign A) b bounds.old }
{
    if boxes::is_empty(bounds) {
        return RowPropagation::Infeasible;
    }
    let rhs = b as i64;
    let r = reach_of(coefs, sign, bounds);
    let least = r.least;
    if r.widest <= rhs - least {
        return RowPropagation::Unchanged;
    }
    if rhs < least {
        boxes::make_empty(bounds);
        return RowPropagation::Infeasible;
    }
    RowPropagation::Tightened(tighten_bounds(coefs, sign, rhs, least, bounds))
}

// What the two forms of an = row come to: the first is not infeasible. No bound is moved by both.
pub fn both(first: RowPropagation, second: RowPropagation) -> RowPropagation
    requires { BothForms first second }
    ensures { result ≡ both_forms first second }
{
    let RowPropagation::Tightened(moved) = first else {
        return second;
    };
    match second {
        RowPropagation::Infeasible => RowPropagation::Infeasible,
        RowPropagation::Tightened(more) => RowPropagation::Tightened(moved + more),
        RowPropagation::Unchanged => RowPropagation::Tightened(moved),
    }
}

// Propagates the row: an = row (kind 1) by its ≤ form and then, on the box that it left, by its negated form.
pub fn propagate_row(coefs: &[i32], b: i32, kind: u8, bounds: &mut [i32]) -> RowPropagation
    requires { ValidRow (length coefs.now) coefs.now b bounds.old }
    ensures { let A = coefs.now in
        propagated_row_of result bounds.new
        ≡ propagate_row_of (length A) (row_with A b kind) bounds.old }
{
    let first = propagate_form(coefs, 1, b, bounds);
    if kind != 1 {
        return first;
    }
    let RowPropagation::Infeasible = first else {
        return both(first, propagate_form(coefs, -1, -b, bounds));
    };
    first
}

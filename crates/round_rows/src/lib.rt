// The phases of a round that change rows: redundant rows are removed, coefficients are tightened. The model is valid
// before them, and each call leaves it valid. Their calls are direct ones, made by the function of their kind, and pass
// their checks: a list would refuse them.
#![tactic(auto)]

ghost use Rattle.std.specs.Prelude.{◌≡◌, ◌&&◌, [], ◌*◌, ◌+◌, ◌<◌};
ghost use Rattle.model.specs.Box.{at, is_free};
ghost use Rattle.row.specs.Tightening.{may_tighten};
ghost use Rattle.model.specs.Model.{model_of};
ghost use Rattle.model.specs.Valid.{ValidModel};
ghost use Rattle.call.specs.Classes.{class_is};
ghost use Rattle.model.specs.Rows.{row_at, rows_of};
ghost use Rattle.rounds.specs.Phase.{Phase};
ghost use Rattle.round_rows.specs.TightenedAt.{TightenedAt};
ghost use Rattle.rounds.specs.Round.{is_change, removals, tighten_row, tightenings};

use boxes::is_free;
use call::{CallClass, class_of_removal, class_of_tightening};
use matrix_change::{maximum_activity_at, remove_redundant_row_at, tighten_coefficient_at};
use row_tightening::may_tighten;

// Whether a call changed a bound, row (its kind too) or table byte.
pub fn is_changed(class: CallClass) -> bool
    ensures { result ≡ is_change (class_is class) }
{
    matches!(class, CallClass::Changed)
}

// Removes each redundant row, upwards; says whether a number changed.
pub fn remove_rows(
    n: usize,
    m: usize,
    bounds: &[i32],
    coefs: &mut [i32],
    rhs: &mut [i32],
    kinds: &mut [u8],
) -> bool
    requires { ValidModel (model_of n m bounds.now (rows_of coefs.old rhs.old kinds.old)) }
    ensures { let A = rows_of coefs.old rhs.old kinds.old in
        let A' = rows_of coefs.new rhs.new kinds.new in
        Phase removals n m bounds.now A A' result }
{
    if boxes::is_empty(bounds) {
        return false;
    }
    let mut changed = false;
    for r in 0..m {
        let removal = remove_redundant_row_at(n, coefs, rhs, kinds, r, bounds);
        changed |= is_changed(class_of_removal(removal));
    }
    changed
}

// Whether variable k is free and its coefficient in the row, of which `most` is Lmax, passes the rule's test.
fn may_tighten_at(
    n: usize,
    bounds: &[i32],
    coefs: &[i32],
    rhs: &[i32],
    row: usize,
    k: usize,
    most: i64,
) -> bool
    requires { TightenedAt n bounds.now (rows_of coefs.now rhs.now []) row k most }
    ensures { let A = row_at n (rows_of coefs.now rhs.now []) row in
        result ≡ (is_free bounds.now k && may_tighten (at A.coefs k) most A.rhs) }
{
    if !is_free(bounds, k) {
        return false;
    }
    may_tighten(coefs[row * n + k], rhs[row], most)
}

// Tightens row `row` at each variable that is free when its turn comes, upwards; says whether a number changed. A
// coefficient that fails the rule's test stays, so only the others are called for; Lmax is found once, and anew after
// each of them.
fn tighten_row(
    n: usize,
    m: usize,
    bounds: &[i32],
    coefs: &mut [i32],
    rhs: &mut [i32],
    kinds: &[u8],
    row: usize,
) -> bool
    requires row_lt_m { row < m }
    requires valid_model { ValidModel (model_of n m bounds.now (rows_of coefs.old rhs.old kinds.now)) }
    ensures { let A = rows_of coefs.old rhs.old kinds.now in
        let A' = rows_of coefs.new rhs.new kinds.now in
        Phase (tighten_row row) n m bounds.now A A' result }
{
    let mut most = maximum_activity_at(n, coefs, row, bounds);
    let mut changed = false;
    for k in 0..n {
        if may_tighten_at(n, bounds, coefs, rhs, row, k, most) {
            let tightening = tighten_coefficient_at(n, coefs, rhs, kinds, row, bounds, k);
            changed |= is_changed(class_of_tightening(tightening));
            most = maximum_activity_at(n, coefs, row, bounds);
        }
    }
    changed
}

// The same of each row, upwards.
pub fn tighten_rows(
    n: usize,
    m: usize,
    bounds: &[i32],
    coefs: &mut [i32],
    rhs: &mut [i32],
    kinds: &[u8],
) -> bool
    requires { ValidModel (model_of n m bounds.now (rows_of coefs.old rhs.old kinds.now)) }
    ensures { let A = rows_of coefs.old rhs.old kinds.now in
        let A' = rows_of coefs.new rhs.new kinds.now in
        Phase tightenings n m bounds.now A A' result }
{
    let mut changed = false;
    for r in 0..m {
        changed |= tighten_row(n, m, bounds, coefs, rhs, kinds, r);
    }
    changed
}

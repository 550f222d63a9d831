// Tighten a coefficient (01's sharpen) of a row of a model that passed the checks, its box empty or not. A row's kind is
// the byte that C lends, 1 for an = row, and the contract answers for every byte.
#![tactic(auto)]

ghost use Rattle.std.specs.Prelude.{◌≡◌, ◌<◌, length};
ghost use Rattle.integer.specs.Range.{Within};
ghost use Rattle.model.specs.Limits.{coef_size};
ghost use Rattle.row.specs.Answers.{tightening_outcome};
ghost use Rattle.row.specs.Tightening.{may_tighten};
ghost use Rattle.row.specs.KindChanges.{tighten_row_of};
ghost use Rattle.model.specs.Rows.{row_with};
ghost use Rattle.row.specs.ValidRow.{ValidRow};

use model::MAX_RHS;
use row::tightening::CoefficientTightening;
use row_activity::maximum_activity;

// No right side is tightened to less (01: "it is not made if the new b is under −1,000,000,000").
const MIN_RHS: i64 = -(MAX_RHS as i64);

// The rule's test, for a row with the greatest activity `most`. Where it fails, tightening answers Unchanged
// (`tighten-fails`), so a caller that knows `most` of a row need not have it found anew for each variable.
pub fn may_tighten(a: i32, b: i32, most: i64) -> bool
    requires within { Within coef_size a }
    requires within_2 { Within 5000000000000 most }
    ensures { result ≡ may_tighten a most b }
{
    let rhs = b as i64;
    if rhs >= most {
        return false;
    }
    if a <= 0 {
        return most + (a as i64) < rhs;
    }
    most - (a as i64) < rhs
}

// Tightens the coefficient of the free binary variable k. Where the row can be broken (most > b) but not without x_k,
// or not with it (most − |a| < b), the coefficient shrinks to what is needed to keep the same integer points: for a > 0
// the right side falls by as much as the coefficient, for a < 0 it stays. An = row stays.
pub fn tighten_coefficient(
    coefs: &mut [i32],
    b: &mut i32,
    kind: u8,
    bounds: &[i32],
    k: usize,
) -> CoefficientTightening
    requires valid_row { ValidRow (length coefs.old) coefs.old b.old bounds.now }
    requires k_in_bounds { k < length coefs.old }
    ensures answer { let A = coefs.old in
        let q = row_with A b.old kind in
        tightening_outcome result ≡ (tighten_row_of (length A) q bounds.now k).outcome }
    ensures row { let A = coefs.old in
        let q = row_with A b.old kind in
        row_with coefs.new b.new kind ≡ (tighten_row_of (length A) q bounds.now k).row }
{
    if boxes::is_empty(bounds) {
        return CoefficientTightening::Infeasible;
    }
    let is_equality = kind == 1;
    if is_equality {
        return CoefficientTightening::Unchanged;
    }
    if coefs[k] == 0 {
        return CoefficientTightening::Unchanged;
    }
    let most = maximum_activity(coefs, bounds);
    let rhs = *b as i64;
    if most <= rhs {
        return CoefficientTightening::Unchanged;
    }
    let a = coefs[k] as i64;
    let is_positive = a > 0;
    if is_positive {
        if rhs <= most - a {
            return CoefficientTightening::Unchanged;
        }
        let is_too_low = most - a < MIN_RHS;
        if is_too_low {
            return CoefficientTightening::Unchanged;
        }
        coefs[k] = (most - rhs) as i32;
        *b = (most - a) as i32;
        return CoefficientTightening::Tightened;
    }
    if rhs <= most + a {
        return CoefficientTightening::Unchanged;
    }
    coefs[k] = (rhs - most) as i32;
    CoefficientTightening::Tightened
}

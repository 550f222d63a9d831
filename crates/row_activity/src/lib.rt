// Row sums: the least and the greatest value of a row's left side over the box, and its widest term. At most 128 terms
// of 10^6 · 32,768 each, so the sums stay far within an i64.
#![tactic(auto)]

ghost use Rattle.std.specs.Prelude.{◌≡◌, length};
ghost use Rattle.integer.specs.Order.{max_z};
ghost use Rattle.integer.specs.Range.{Within};
ghost use Rattle.model.specs.Limits.{bound_size, coef_size};
ghost use Rattle.row.specs.Activity.{min_term, term_width, min_activity, max_activity, widest_term};
ghost use Rattle.row.specs.Kinds.{signed};
ghost use Rattle.row.specs.ValidRow.{IsSign, ValidCoefs};

// a · low for a above 0, else a · high.
pub fn term(a: i32, low: i32, high: i32) -> i64
    requires within { Within coef_size a }
    requires within_2 { Within bound_size low }
    requires within_3 { Within bound_size high }
    ensures { result ≡ min_term a low high }
{
    if a > 0 {
        (a as i64) * (low as i64)
    } else {
        (a as i64) * (high as i64)
    }
}

// Lmin.
pub fn minimum_activity(coefs: &[i32], bounds: &[i32]) -> i64
    requires { ValidCoefs (length coefs.now) coefs.now bounds.now }
    ensures { result ≡ min_activity (length coefs.now) coefs.now bounds.now }
{
    let mut sum: i64 = 0;
    for (j, &a) in coefs.iter().enumerate() {
        sum += term(a, bounds[2 * j], bounds[2 * j + 1]);
    }
    sum
}

// Lmax: each term with its bounds exchanged.
pub fn maximum_activity(coefs: &[i32], bounds: &[i32]) -> i64
    requires { ValidCoefs (length coefs.now) coefs.now bounds.now }
    ensures { result ≡ max_activity (length coefs.now) coefs.now bounds.now }
{
    let mut sum: i64 = 0;
    for (j, &a) in coefs.iter().enumerate() {
        sum += term(a, bounds[2 * j + 1], bounds[2 * j]);
    }
    sum
}

// The greater of `widest` and the width |a| · (high − low) of a term.
pub fn wider(widest: i64, a: i32, low: i32, high: i32) -> i64
    requires within { Within coef_size a }
    requires within_2 { Within bound_size low }
    requires within_3 { Within bound_size high }
    ensures { result ≡ max_z widest (term_width a low high) }
{
    let width = term(a, high, low) - term(a, low, high);
    widest.max(width)
}

// Lmin and the width of the widest term, which together say whether a row moves anything: found in one sweep.
#[derive(Clone, Copy)]
pub struct Reach {
    pub least: i64,
    pub widest: i64,
}

// Of the row itself (sign 1) or of its negated form (sign −1). A coefficient of 0 adds nothing to either, so its bounds
// are not read.
pub fn reach_of(coefs: &[i32], sign: i32, bounds: &[i32]) -> Reach
    requires valid_coefs { ValidCoefs (length coefs.now) coefs.now bounds.now }
    requires sign { IsSign sign }
    ensures least { let A = coefs.now in
        result.least ≡ min_activity (length A) (signed sign A) bounds.now }
    ensures widest { let A = coefs.now in
        result.widest ≡ widest_term (length A) (signed sign A) bounds.now }
{
    let mut least: i64 = 0;
    let mut widest: i64 = 0;
    for (j, &coef) in coefs.iter().enumerate() {
        let a = sign * coef;
        if a == 0 {
            continue;
        }
        let low = bounds[2 * j];
        let high = bounds[2 * j + 1];
        least += term(a, low, high);
        widest = wider(widest, a, low, high);
    }
    Reach { least, widest }
}

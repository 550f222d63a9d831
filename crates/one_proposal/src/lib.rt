// One proposed allocation (02, C-21): against the box, against a row.
#![tactic(auto)]

ghost use Rattle.std.specs.Prelude.{◌≡◌, ◌*◌, ◌+◌, ◌≤◌, length};
ghost use Rattle.model.specs.Point.{dot};
ghost use Rattle.model.specs.Rows.{row_with};
ghost use Rattle.semantics.specs.Lowest.{lowest};
ghost use Rattle.sweep.specs.Steps.{Steps};
ghost use Rattle.proposals.specs.Holding.{Holdable};
ghost use Rattle.proposals.specs.Proposals.{proposal};
ghost use Rattle.proposals.specs.Verdict.{in_bounds, meets};

use matrix::coefficients;

// The numbers of proposal c: the proposals stand one after the other, as rows do in a matrix.
pub fn proposal_at<'a>(n: usize, proposals: &'a [i32], c: usize) -> &'a [i32]
    requires { c * n + n ≤ length proposals.now }
    ensures { result.now ≡ proposal n proposals.now c }
{
    coefficients(n, proposals, c)
}

// The lowest variable of x that is not between its bounds, n where there is none. The numbers are any.
pub fn first_outside(n: usize, bounds: &[i32], x: &[i32]) -> usize
    requires bounds_len { length bounds.now ≡ 2 * n }
    requires x_len { length x.now ≡ n }
    ensures { result ≡ lowest n (in_bounds bounds.now x.now) }
{
    for (j, &number) in x.iter().enumerate() {
        let low = bounds[2 * j];
        let high = bounds[2 * j + 1];
        if number < low {
            return j;
        }
        if high < number {
            return j;
        }
    }
    n
}

// The sum of coefficient × variable, by the row's steps. At most 128 terms of 10^6 · 32,768 each: x is inside the box.
fn value_at(coefs: &[i32], steps: &[u8], x: &[i32]) -> i64
    requires holdable { Holdable (length coefs.now) coefs.now x.now }
    requires steps { Steps (length coefs.now) coefs.now steps.now }
    ensures { result ≡ dot (length coefs.now) coefs.now x.now }
{
    let mut sum: i64 = 0;
    let mut j: usize = 0;
    // No `for`: a turn goes on to the row's next coefficient that is not 0 (`Steps`), not to the next place.
    while j < coefs.len() {
        sum += (coefs[j] as i64) * (x[j] as i64);
        j += steps[j] as usize;
    }
    sum
}

// Whether the row holds at x, by its kind: a byte and no enum, since a book and C's buffers have the byte.
pub fn meets_row(coefs: &[i32], steps: &[u8], b: i32, kind: u8, x: &[i32]) -> bool
    requires holdable { Holdable (length coefs.now) coefs.now x.now }
    requires steps { Steps (length coefs.now) coefs.now steps.now }
    ensures { let A = coefs.now in
        result ≡ meets (length A) (row_with A b kind) x.now }
{
    let value = value_at(coefs, steps, x);
    if kind == 1 {
        return value == b as i64;
    }
    value <= b as i64
}

// All proposals: against the box, and then against one row after the other. A verdict is told in two numbers, and is
// open as long as the first is 0.
ghost use Rattle.std.specs.Prelude.{◌≡◌, ℕ, ◌*◌, ◌+◌, ◌<◌, ◌≤◌, get_or, length};
ghost use Rattle.model.specs.Limits.{max_rows, max_variables};
ghost use Rattle.model.specs.Model.{model_of};
ghost use Rattle.model.specs.Rows.{row_at, row_of, row_with, rows_of};
ghost use Rattle.row_index.specs.Index.{RowSteps};
ghost use Rattle.matrix_view.specs.RowIn.{RowIn, StepsIn};
ghost use Rattle.sweep.specs.Steps.{Steps};
ghost use Rattle.proposals.specs.Proposals.{proposal};
ghost use Rattle.proposals.specs.Verdict.{Verdict, meets, verdict};
ghost use Rattle.proposals.specs.Holding.{Holdable, Judgeable, Lent, Pending};
ghost use Rattle.proposals.specs.Telling.{Says, Tells, box_verdict, held, with_numbers, with_verdict};

use matrix::{coefficients, row_bytes};
use one_proposal::{first_outside, meets_row, proposal_at};
use row_index::know_steps;

// The first number of a verdict. No enum: the lent buffer, which C reads, has the numbers.
const INSIDE: u32 = 0;

const OUTSIDE: u32 = 1;

const BREAKS: u32 = 2;

fn tell(verdicts: &mut [u32], c: usize, case: u32, number: u32)
    requires { 2 * c + 1 < length verdicts.old }
    ensures { verdicts.new ≡ with_numbers verdicts.old c case number }
{
    verdicts[2 * c] = case;
    verdicts[2 * c + 1] = number;
}

// Holds proposal c, whose numbers are x, against the box.
fn hold_box(n: usize, bounds: &[i32], x: &[i32], c: usize, verdicts: &mut [u32])
    requires n_le_max_variables { (n ≤ max_variables) × (length bounds.now ≡ 2 * n) × (length x.now ≡ n) }
    requires c_in_bounds { 2 * c + 1 < length verdicts.old }
    ensures { let v = box_verdict n bounds.now x.now in
        verdicts.new ≡ with_verdict verdicts.old c v }
{
    let j = first_outside(n, bounds, x);
    if j < n {
        tell(verdicts, c, OUTSIDE, j as u32);
        return;
    }
    tell(verdicts, c, INSIDE, 0);
}

// Holds each proposal against the box.
fn hold_boxes(n: usize, bounds: &[i32], count: usize, proposals: &[i32], verdicts: &mut [u32])
    requires { Lent n count proposals.now verdicts.old × (length bounds.now ≡ 2 * n) }
    ensures { let P = proposals.now in
        Tells count (λ c. box_verdict n bounds.now (proposal n P c)) verdicts.new }
{
    for c in 0..count {
        hold_box(n, bounds, proposal_at(n, proposals, c), c, verdicts);
    }
}

// Holds proposal c, whose numbers are x, against row i, unless it has its verdict.
fn hold_one(
    coefs: &[i32],
    steps: &[u8],
    b: i32,
    kind: u8,
    i: u32,
    x: &[i32],
    c: usize,
    verdicts: &mut [u32],
)
    requires holdable { (get_or verdicts.old (2 * c) 0 ≡ 0 → Holdable (length coefs.now) coefs.now x.now)
        × Steps (length coefs.now) coefs.now steps.now }
    requires c_in_bounds { 2 * c + 1 < length verdicts.old }
    ensures { let A = coefs.now in
        let met = meets (length A) (row_with A b kind) x.now in
        ((v : Verdict) → Says verdicts.old c v →
        verdicts.new ≡ with_verdict verdicts.old c (held i met v)) }
{
    if verdicts[2 * c] != INSIDE {
        return;
    }
    if !meets_row(coefs, steps, b, kind, x) {
        tell(verdicts, c, BREAKS, i);
    }
}

// Holds row i against each proposal that has no verdict yet.
fn hold_row(
    n: usize,
    coefs: &[i32],
    steps: &[u8],
    b: i32,
    kind: u8,
    i: u32,
    count: usize,
    proposals: &[i32],
    verdicts: &mut [u32],
)
    requires { Pending n count coefs.now proposals.now verdicts.old × Steps n coefs.now steps.now }
    ensures { let r = row_with coefs.now b kind in
        let P = proposals.now in
        ((f : ℕ → Verdict) → Tells count f verdicts.old →
        Tells count (λ c. held i (meets n r (proposal n P c)) (f c)) verdicts.new) }
{
    for c in 0..count {
        hold_one(
            coefs,
            steps,
            b,
            kind,
            i,
            proposal_at(n, proposals, c),
            c,
            verdicts,
        );
    }
}

// The same of row i in its matrix, by its steps.
fn hold_row_at(
    n: usize,
    coefs: &[i32],
    rhs: &[i32],
    kinds: &[u8],
    i: usize,
    across: &[u8],
    count: usize,
    proposals: &[i32],
    verdicts: &mut [u32],
)
    requires fact { let A = rows_of coefs.now rhs.now kinds.now in
        (i ≤ max_rows) × RowIn n A i × StepsIn n coefs.now across.now i }
    requires pending { Pending n count (row_of n coefs.now i) proposals.now verdicts.old }
    ensures { let r = row_at n (rows_of coefs.now rhs.now kinds.now) i in
        let P = proposals.now in
        ((f : ℕ → Verdict) → Tells count f verdicts.old →
        Tells count (λ c. held i (meets n r (proposal n P c)) (f c)) verdicts.new) }
{
    hold_row(
        n,
        coefficients(n, coefs, i),
        row_bytes(n, across, i),
        rhs[i],
        kinds[i],
        i as u32,
        count,
        proposals,
        verdicts,
    );
}

// Finds the verdicts of `count` proposals: the rows are read once, upwards, and the proposals are the inner loop.
pub fn judge(
    n: usize,
    m: usize,
    bounds: &[i32],
    coefs: &[i32],
    rhs: &[i32],
    kinds: &[u8],
    count: usize,
    proposals: &[i32],
    across: &mut [u8],
    verdicts: &mut [u32],
)
    requires { let A = rows_of coefs.now rhs.now kinds.now in
        Judgeable (model_of n m bounds.now A) count proposals.now verdicts.old
        × RowSteps n m coefs.now across.old }
    ensures { let A = rows_of coefs.now rhs.now kinds.now in
        let M = model_of n m bounds.now A in
        let P = proposals.now in
        Tells count (λ c. verdict M (proposal n P c)) verdicts.new }
{
    hold_boxes(n, bounds, count, proposals, verdicts);
    for i in 0..m {
        know_steps(n, m, coefs, i, across);
        hold_row_at(n, coefs, rhs, kinds, i, across, count, proposals, verdicts);
    }
}

// The open call.
ghost use Rattle.std.specs.Prelude.{◌≡◌, ◌&&◌, ◌*◌, ◌≤◌, eqb, length};
ghost use Rattle.model.specs.Model.{model_of};
ghost use Rattle.model.specs.Refusals.{fault_of};
ghost use Rattle.model.specs.Rows.{rows_of};
ghost use Rattle.proposals.specs.Call.{allocation_fault, verdicts_left};
ghost use Rattle.proposals.specs.Holding.{Judgeable};
ghost use Rattle.proposals.specs.Meaning.{Judged};
ghost use Rattle.proposals.specs.Proposals.{proposal};
ghost use Rattle.proposals.specs.Telling.{Tells};
ghost use Rattle.proposals.specs.Verdict.{verdict};

use crate::judging::judge;
use buffer_checks::is_product;
use model::MAX_MATRIX;
use model::refusal::Refusal;
use model_checks::{check_model, check_size};

const MAX_PROPOSALS: u32 = 64;

// Whether the proposals and the room for their verdicts have the lengths that `count` and n give.
fn is_lent(n: usize, count: u32, proposals: &[i32], verdicts: &[u32]) -> bool
    requires { count ≤ 64 }
    ensures { let P = proposals.now in
        let Y = verdicts.now in
        result ≡ (eqb (length P) (count * n) && eqb (length Y) (2 * count)) }
{
    let count = count as usize;
    is_product(proposals.len(), count, n) && verdicts.len() == 2 * count
}

// Checks 3, 22, 5, 6, 7, 23, 8, 9 and 16, in this order.
fn check_call(
    n: usize,
    m: usize,
    bounds: &[i32],
    coefs: &[i32],
    rhs: &[i32],
    kinds: &[u8],
    proposals: &[i32],
    count: u32,
    verdicts: &[u32],
) -> Result<(), Refusal>
    ensures { let A = rows_of coefs.now rhs.now kinds.now in
        let M = model_of n m bounds.now A in
        fault_of result ≡ allocation_fault M proposals.now count verdicts.now }
{
    check_size(n, m)?;
    if count < 1 {
        return Err(Refusal::ProposalCount);
    }
    if MAX_PROPOSALS < count {
        return Err(Refusal::ProposalCount);
    }
    let fits = is_lent(n, count, proposals, verdicts);
    check_model(n, m, bounds, coefs, rhs, kinds, fits)
}

// The verdicts of an accepted call. The rows' steps are the call's own.
fn judge_all(
    n: usize,
    m: usize,
    bounds: &[i32],
    coefs: &[i32],
    rhs: &[i32],
    kinds: &[u8],
    count: usize,
    proposals: &[i32],
    verdicts: &mut [u32],
)
    requires { let A = rows_of coefs.now rhs.now kinds.now in
        Judgeable (model_of n m bounds.now A) count proposals.now verdicts.old }
    ensures { let A = rows_of coefs.now rhs.now kinds.now in
        let M = model_of n m bounds.now A in
        let P = proposals.now in
        Tells count (λ c. verdict M (proposal n P c)) verdicts.new }
{
    let mut across = [0u8; MAX_MATRIX];
    judge(
        n,
        m,
        bounds,
        coefs,
        rhs,
        kinds,
        count,
        proposals,
        &mut across,
        verdicts,
    );
}

// Holds `count` proposals, each of n numbers, against the model, and tells each one's verdict in two numbers: 0 0
// inside, 1 j outside the box at variable j, the lowest such, 2 i inside the box and row i, the lowest such, broken.
// Refused by the first check that fails, and then no verdict is written. `meaning`: inside exactly if the
// proposal is an integer point of the model; so the same yes or no against whatever calls made of it.
pub fn check_allocations(
    n: usize,
    m: usize,
    bounds: &[i32],
    coefs: &[i32],
    rhs: &[i32],
    kinds: &[u8],
    proposals: &[i32],
    count: u32,
    verdicts: &mut [u32],
) -> Result<(), Refusal>
    ensures number { let A = rows_of coefs.now rhs.now kinds.now in
        let M = model_of n m bounds.now A in
        fault_of result ≡ allocation_fault M proposals.now count verdicts.old }
    ensures told { let A = rows_of coefs.now rhs.now kinds.now in
        let M = model_of n m bounds.now A in
        verdicts.new ≡ verdicts_left M proposals.now count verdicts.old }
    ensures meaning { let A = rows_of coefs.now rhs.now kinds.now in
        let M = model_of n m bounds.now A in
        (fault_of result ≡ 0 → Judged M proposals.now count verdicts.new) }
{
    check_call(n, m, bounds, coefs, rhs, kinds, proposals, count, verdicts)?;
    judge_all(
        n,
        m,
        bounds,
        coefs,
        rhs,
        kinds,
        count as usize,
        proposals,
        verdicts,
    );
    Ok(())
}

// The call on proposed allocations. It has no answer buffer: the verdicts and the number say all.
ghost use Rattle.std.specs.Prelude.{◌≡◌};
ghost use Rattle.model.specs.Model.{model_of};
ghost use Rattle.model.specs.Rows.{rows_of};
ghost use Rattle.proposals.specs.Call.{allocation_fault, verdicts_left};

use verdicts::check_allocations;

// The verdicts of `count` proposals against a model, two numbers each: {0, 0} inside, {1, j} outside the box at
// variable j, {2, i} breaks row i. Refused by 3, 22, 5, 6, 7, 23, 8, 9, 16, in this order.
#[unsafe(no_mangle)]
pub extern "C" fn astrolabe_check_allocations(
    n: usize,
    m: usize,
    bounds: &[i32],
    coefs: &[i32],
    rhs: &[i32],
    kinds: &[u8],
    proposals: &[i32],
    count: u32,
    verdicts: &mut [u32],
) -> u32
    ensures number { let A = rows_of coefs.now rhs.now kinds.now in
        let M = model_of n m bounds.now A in
        result ≡ allocation_fault M proposals.now count verdicts.old }
    ensures told { let A = rows_of coefs.now rhs.now kinds.now in
        let M = model_of n m bounds.now A in
        verdicts.new ≡ verdicts_left M proposals.now count verdicts.old }
{
    match check_allocations(n, m, bounds, coefs, rhs, kinds, proposals, count, verdicts) {
        Ok(()) => 0,
        Err(refusal) => refusal.number(),
    }
}

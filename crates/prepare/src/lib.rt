// Prepares a model for many calls: it is checked once and written into a lent workspace of 32-bit numbers, which holds
// all that the prepared calls read.
#![tactic(auto)]

mod writing;

ghost use Rattle.std.specs.Prelude.{◌≡◌, eqb, length};
ghost use Rattle.model.specs.Checks.{model_fault, none};
ghost use Rattle.model.specs.Model.{model_of};
ghost use Rattle.model.specs.Refusals.{fault_of};
ghost use Rattle.model.specs.Rows.{rows_of};
ghost use Rattle.prepared_model.specs.Layout.{rows_in, variables_of, workspace_len};
ghost use Rattle.prepared_model.specs.Prepared.{Prepared};

use crate::writing::write;
use model::refusal::Refusal;
use model_checks::check_model;
use workspace::WORKSPACE_LEN;

// Checks the model and writes it into the workspace. It is refused by the first check that fails: 3, 5 (a workspace of
// another length is among the lengths), 6, 7, 23, 8, 9, 16. A call that is refused changes nothing.
pub fn prepare(
    n: usize,
    m: usize,
    bounds: &[i32],
    coefs: &[i32],
    rhs: &[i32],
    kinds: &[u8],
    ws: &mut [u32],
) -> Result<(), Refusal>
    ensures fault { let A = rows_of coefs.now rhs.now kinds.now in
        fault_of result ≡ model_fault (model_of n m bounds.now A) none (eqb (length ws.old) workspace_len) }
    ensures refused { (fault_of result ≡ 0 → ⊥) → ws.new ≡ ws.old }
    ensures prepared { let A = rows_of coefs.now rhs.now kinds.now in
        (fault_of result ≡ 0 → Prepared ws.new A × (variables_of ws.new ≡ n) × (rows_in ws.new ≡ m)) }
{
    check_model(n, m, bounds, coefs, rhs, kinds, ws.len() == WORKSPACE_LEN)?;
    write(n, m, coefs, rhs, kinds, ws);
    Ok(())
}

// Prepared models: a model is checked once and written into a lent workspace; then a call at every branch is lent the
// workspace and bounds. What is said of the answer is said of a workspace that is prepared for some rows; what is said
// of refusals, of any.
ghost use Rattle.std.specs.Prelude.{◌≡◌, eqb, length};
ghost use Rattle.model.specs.Checks.{model_fault, none};
ghost use Rattle.model.specs.Model.{model_of};
ghost use Rattle.model.specs.Rows.{rows_of};
ghost use Rattle.prepared_exports.specs.PreparedSaid.{ProbeSaid, PropagateSaid};
ghost use Rattle.prepared_model.specs.Layout.{rows_in, variables_of, workspace_len};
ghost use Rattle.prepared_model.specs.Prepared.{Prepared};

use prepare::prepare;
use prepared_exports::{probe_said, propagate_said};

// Checks a model and writes it into the workspace; no answer, the number says all. Refused by the model's checks, the
// workspace's length among those of 5.
#[unsafe(no_mangle)]
pub extern "C" fn astrolabe_prepare(
    n: usize,
    m: usize,
    bounds: &[i32],
    coefs: &[i32],
    rhs: &[i32],
    kinds: &[u8],
    workspace: &mut [u32],
) -> u32
    ensures fault { let A = rows_of coefs.now rhs.now kinds.now in
        let fits = eqb (length workspace.old) workspace_len in
        result ≡ model_fault (model_of n m bounds.now A) none fits }
    ensures refused { (result ≡ 0 → ⊥) → workspace.new ≡ workspace.old }
    ensures prepared { let A = rows_of coefs.now rhs.now kinds.now in
        let W = workspace.new in
        (result ≡ 0 → Prepared W A × (variables_of W ≡ n) × (rows_in W ≡ m)) }
{
    match prepare(n, m, bounds, coefs, rhs, kinds, workspace) {
        Ok(()) => 0,
        Err(refusal) => refusal.number(),
    }
}

// 01's settle: {0 None | 1 Settled | 2 Spent, passes, moved, the infeasible row}. Refused by 5, 6, 7, 23 and 15.
#[unsafe(no_mangle)]
pub extern "C" fn astrolabe_prepared_propagate(
    workspace: &mut [u32],
    bounds: &mut [i32],
    budget: u32,
    reasons: &mut [u32],
    answer: &mut [u64],
) -> u32
    ensures { PropagateSaid budget workspace.old bounds.old reasons.old
        answer.old result workspace.new bounds.new reasons.new
        answer.new }
{
    propagate_said(workspace, bounds, budget, reasons, answer)
}

// 01's probe: the answer is that of any probe, then the infeasible rows of the two sides. Refused by 5, 6, 7, 23, 10,
// 13, 14 and 15.
#[unsafe(no_mangle)]
pub extern "C" fn astrolabe_prepared_probe(
    workspace: &mut [u32],
    bounds: &mut [i32],
    table: &mut [u8],
    variable: u32,
    budget: u32,
    reasons: &mut [u32],
    answer: &mut [u64],
) -> u32
    ensures { ProbeSaid variable budget workspace.old bounds.old table.old
        reasons.old answer.old result workspace.new bounds.new table.new
        reasons.new answer.new }
{
    probe_said(workspace, bounds, table, variable, budget, reasons, answer)
}

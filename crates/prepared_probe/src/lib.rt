// The open call `probe` of a prepared model (01's probe): a model that `prepare` wrote into a workspace, a lent box and
// a lent table. Only rows are looked at that may move a bound of a side. Of any workspace: `refused` and `accepted`. Of
// one that is prepared for the rows A, whichever they are: `defined`, the answer, the counts, the box and the table are
// those of `perform`, `reasons`, which row moved which bound of a side last, and `prepared`, it still is. What the
// answer means is then that of `probe_call::probe` (`promised-ends`), what the reasons mean `probe-reasons-mean`.
#![tactic(auto)]

mod accepted;

ghost use Rattle.std.specs.Prelude.{◌≡◌, true, not, T, length};
ghost use Rattle.model.specs.Rows.{Rows};
ghost use Rattle.model.specs.State.{state_of};
ghost use Rattle.prepared_checks.specs.Checks.{probe_fault, sides_fit};
ghost use Rattle.prepared_model.specs.Keeps.{Keeps};
ghost use Rattle.prepared_model.specs.Layout.{rows_in, variables_of};
ghost use Rattle.prepared_model.specs.Prepared.{Prepared};
ghost use Rattle.prepared_model.specs.ProbeReasons.{probe_reasons};
ghost use Rattle.prepared_probe.specs.ProbeAnswers.{prepared_probe_answer, row0_of, row1_of};
ghost use Rattle.reducer.specs.OpenCalls.{performed};
ghost use Rattle.semantics.specs.Call.{call_of};
ghost use Rattle.semantics.specs.Perform.{perform, refused};
ghost use Rattle.semantics.specs.Run.{is_refused};

use crate::accepted::probe_prepared;
use model::refusal::Refusal;
use prepared_checks::check_probe;
use prepared_sides::ProbedSides;

// Probes the free binary variable `variable`, each side with `budget` passes: what the two sides come to. Refused by 5 (workspace, 2n bounds, 4n²
// bytes of the table, 0 or 4n reasons), 6, 7, 23, 10, 13, 14 and 15.
pub fn probe(
    ws: &mut [u32],
    bounds: &mut [i32],
    table: &mut [u8],
    variable: u32,
    budget: u32,
    reasons: &mut [u32],
) -> Result<ProbedSides, Refusal>
    ensures refused { let W = ws.old in
        let R = reasons.old in
        let fault = probe_fault W bounds.old table.old R variable budget in
        ((fault ≡ 0 → ⊥) → (prepared_probe_answer result ≡ refused fault) × (ws.new ≡ W)
        × (bounds.new ≡ bounds.old) × (table.new ≡ table.old)
        × (reasons.new ≡ R)) }
    ensures accepted { let W = ws.old in
        let fault = probe_fault W bounds.old table.old reasons.old variable budget in
        (fault ≡ 0 → T (not (is_refused (prepared_probe_answer result)))
        × Keeps W ws.new (prepared_probe_answer result) bounds.new) }
    ensures defined { let W = ws.old in
        ((A : Rows) → Prepared W A → sides_fit (variables_of W) reasons.old ≡ true
        → let s = state_of (variables_of W) (rows_in W) bounds.old A table.old in
        let r' = state_of (variables_of W) (rows_in W) bounds.new A table.new in
        performed (prepared_probe_answer result) r' ≡ perform s (call_of s 3 0 variable budget)) }
    ensures reasons { let W = ws.old in
        let B = bounds.old in
        let R = reasons.old in
        (probe_fault W B table.old R variable budget ≡ 0 → (A : Rows) → Prepared W A
        → record { movers = reasons.new; row0 = row0_of result; row1 = row1_of result }
        ≡ probe_reasons variable budget (variables_of W) (rows_in W) A B (length R)) }
    ensures prepared { (A : Rows) → Prepared ws.old A → Prepared ws.new A }
{
    check_probe(ws, bounds, table, variable, budget, reasons)?;
    let n = ws[1] as usize;
    let m = ws[2] as usize;
    Ok(probe_prepared(n, m, ws, bounds, table, variable as usize, budget, reasons))
}

// The two sides of a probe of a prepared model, each with its reasons, and what they come to; the workspace is only
// read.
#![tactic(auto)]

ghost use Rattle.std.specs.Prelude.{◌⊎◌, ◌≡◌, ℕ, ◌*◌, ◌<◌, T, pos, length};
ghost use Rattle.model.specs.Box.{is_free};
ghost use Rattle.model.specs.Rows.{Rows};
ghost use Rattle.two_sides.specs.Results.{probing_of};
ghost use Rattle.model.specs.Valid.{ValidTable};
ghost use Rattle.prepared_checks.specs.Checks.{sides_fit};
ghost use Rattle.prepared_model.specs.Prepared.{Prepared};
ghost use Rattle.prepared_model.specs.ProbeReasons.{probe_reasons, side_reasons};
ghost use Rattle.prepared_model.specs.Reasons.{reasons_of};
ghost use Rattle.prepared_model.specs.RowReasons.{Lent};
ghost use Rattle.propagation.specs.Results.{propagation_of};
ghost use Rattle.semantics.specs.Probe.{fix, probe};
ghost use Rattle.semantics.specs.Propagate.{propagate};
ghost use Rattle.prepared_sides.specs.Sides.{Boxed, InRange, SideLeft};

use boxes::{copy_box, make_empty};
use model::MAX_BOX;
use prepared_box::take_box;
use prepared_propagation::reasons::no_reasons;
use prepared_propagation::{PreparedEnd, propagate_prepared};
use propagation::Propagation;
use row_set::SET_WORDS;
use two_sides::{Probing, join};

// What the two sides come to, and of each the row that was infeasible, `NO_ROW` where none was.
#[derive(Clone, Copy)]
pub struct ProbedSides {
    pub probing: Probing,
    pub row0: u32,
    pub row1: u32,
}

// A side, fixed already, is propagated: the rows to look at are those of the box that the workspace knows, and those
// that hear of a bound in which the side differs from it. One that is infeasible is left empty, whatever the workspace
// holds: `join` tells the sides apart by it.
fn propagate_side(
    n: usize,
    m: usize,
    ws: &[u32],
    budget: u32,
    seen: &mut [i32],
    side: &mut [i32],
    reasons: &mut [u32],
) -> PreparedEnd
    requires { Boxed n m ws.now side.old × (length seen.old ≡ length side.old) × Lent n reasons.old }
    ensures answer { (A : Rows) → Prepared ws.now A
        → propagation_of result.end side.new ≡ propagate budget n m A side.old }
    ensures reasons { (A : Rows) → Prepared ws.now A
        → record { movers = reasons.new; infeasible = result.row }
        ≡ reasons_of budget n m A side.old (length reasons.old) }
    ensures left { SideLeft n result.end side.new }
{
    no_reasons(reasons);
    let mut dirty = [0u32; SET_WORDS];
    take_box(n, ws, side, seen, &mut dirty);
    let told = propagate_prepared(n, m, ws, side, budget, seen, &mut dirty, reasons);
    let end = told.end;
    let Propagation::Infeasible(_, _) = end else {
        return told;
    };
    make_empty(side);
    told
}

// Side v of k, in the lent buffer: the box with k fixed at v, propagated with the budget.
fn try_side(
    n: usize,
    m: usize,
    ws: &[u32],
    bounds: &[i32],
    k: usize,
    v: i32,
    budget: u32,
    side: &mut [i32],
    reasons: &mut [u32],
) -> PreparedEnd
    requires boxed { Boxed n m ws.now bounds.now × T (is_free bounds.now k) × (k < n) }
    requires fact { (v ≡ pos 0) ⊎ (v ≡ pos 1) }
    requires side_len { (length side.old ≡ length bounds.now) × Lent n reasons.old }
    ensures answer { (A : Rows) → Prepared ws.now A → (w : ℕ) → v ≡ pos w
        → propagation_of result.end side.new ≡ propagate budget n m A (fix n bounds.now k w) }
    ensures reasons { (A : Rows) → Prepared ws.now A → (w : ℕ) → v ≡ pos w
        → record { movers = reasons.new; infeasible = result.row }
        ≡ side_reasons k w budget n m A bounds.now (length reasons.old) }
    ensures left { SideLeft n result.end side.new }
{
    copy_box(bounds, side);
    side[2 * k] = v;
    side[2 * k + 1] = v;
    let len = bounds.len();
    let mut seen = [0i32; MAX_BOX];
    propagate_side(n, m, ws, budget, &mut seen[..len], side, reasons)
}

// The free variable k is probed. The first half of the reasons is side 0's, the other
// side 1's.
pub fn try_sides(
    n: usize,
    m: usize,
    ws: &[u32],
    bounds: &mut [i32],
    table: &mut [u8],
    k: usize,
    budget: u32,
    reasons: &mut [u32],
) -> ProbedSides
    requires boxed { Boxed n m ws.now bounds.old × T (is_free bounds.old k) × (k < n) }
    requires valid_table { ValidTable n table.old × T (sides_fit n reasons.old) }
    ensures answer { (A : Rows) → Prepared ws.now A → probing_of result.probing bounds.new table.new
        ≡ probe k budget n m A bounds.old table.old }
    ensures reasons { (A : Rows) → Prepared ws.now A
        → record { movers = reasons.new; row0 = result.row0; row1 = result.row1 }
        ≡ probe_reasons k budget n m A bounds.old (length reasons.old) }
    ensures range { InRange bounds.new }
{
    let len = bounds.len();
    let half = reasons.len() / 2;
    let mut zero = [0i32; MAX_BOX];
    let s0 = try_side(
        n,
        m,
        ws,
        bounds,
        k,
        0,
        budget,
        &mut zero[..len],
        &mut reasons[..half],
    );
    let mut one = [0i32; MAX_BOX];
    let s1 = try_side(
        n,
        m,
        ws,
        bounds,
        k,
        1,
        budget,
        &mut one[..len],
        &mut reasons[half..],
    );
    let end0 = s0.end;
    let end1 = s1.end;
    ProbedSides {
        probing: join(n, k, end0, end1, &zero, &one, bounds, table),
        row0: s0.row,
        row1: s1.row,
    }
}

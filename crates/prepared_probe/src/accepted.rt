// A prepared probe that is accepted: its two sides, and what is kept of what they come to.
ghost use Rattle.std.specs.Prelude.{◌≡◌, ◌*◌, ◌<◌, ◌≤◌, ◌||◌, T, length};
ghost use Rattle.model.specs.Box.{NonEmpty, is_empty, is_free};
ghost use Rattle.model.specs.Rows.{Rows};
ghost use Rattle.model.specs.Valid.{ValidBox, ValidTable};
ghost use Rattle.prepared_checks.specs.Checks.{sides_fit};
ghost use Rattle.prepared_model.specs.Keeps.{Keeps};
ghost use Rattle.prepared_model.specs.Layout.{box_in, rows_in, variables_of, workspace_len};
ghost use Rattle.prepared_model.specs.Prepared.{Prepared};
ghost use Rattle.prepared_model.specs.ProbeReasons.{probe_reasons};
ghost use Rattle.prepared_model.specs.SameBut.{SameBut};
ghost use Rattle.prepared_row.specs.Looking.{Sized};
ghost use Rattle.prepared_sides.specs.Sides.{InRange};
ghost use Rattle.two_sides.specs.Results.{probing_of};
ghost use Rattle.reducer.specs.OpenCalls.{probing_answer};
ghost use Rattle.semantics.specs.Probe.{probe};
ghost use Rattle.model.specs.Limits.{max_variables};

use model::MAX_BOX;
use prepared_box::take_box;
use prepared_propagation::reasons::{NO_ROW, no_reasons};
use prepared_sides::{ProbedSides, try_sides};
use row_set::SET_WORDS;
use two_sides::{Probing, untried};
use workspace::{keep_box, keep_set};

// The box becomes the one that the workspace knows, with the rows to look at in it.
fn keep(n: usize, ws: &mut [u32], bounds: &[i32], seen: &mut [i32])
    requires { (n ≤ max_variables) × (length ws.old ≡ workspace_len) × (length bounds.now ≡ 2 * n)
        × (length seen.old ≡ 2 * n) × InRange bounds.now }
    ensures kept { box_in n ws.new ≡ bounds.now }
    ensures others { SameBut 4 264 ws.old ws.new }
    ensures prepared { let W = ws.old in
        ((A : Rows) → Prepared W A → n ≡ variables_of W → ValidBox n bounds.now
        → NonEmpty n bounds.now → Prepared ws.new A) }
{
    let mut dirty = [0u32; SET_WORDS];
    take_box(n, ws, bounds, seen, &mut dirty);
    keep_set(&dirty, ws);
    keep_box(bounds, ws);
}

// Probes variable k of a model and a box that passed the checks. A probe that ends infeasible keeps nothing.
pub fn probe_prepared(
    n: usize,
    m: usize,
    ws: &mut [u32],
    bounds: &mut [i32],
    table: &mut [u8],
    k: usize,
    budget: u32,
    reasons: &mut [u32],
) -> ProbedSides
    requires { (n ≡ variables_of ws.old) × (m ≡ rows_in ws.old) × Sized n m ws.old bounds.old
        × ValidTable n table.old × T (is_empty n bounds.old || is_free bounds.old k) × (k < n)
        × T (sides_fit n reasons.old) }
    ensures answer { (A : Rows) → Prepared ws.old A → probing_of result.probing bounds.new table.new
        ≡ probe k budget n m A bounds.old table.old }
    ensures reasons { (A : Rows) → Prepared ws.old A
        → record { movers = reasons.new; row0 = result.row0; row1 = result.row1 }
        ≡ probe_reasons k budget n m A bounds.old (length reasons.old) }
    ensures prepared { (A : Rows) → Prepared ws.old A → Prepared ws.new A }
    ensures kept { Keeps ws.old ws.new (probing_answer result.probing) bounds.new }
{
    if boxes::is_empty(bounds) {
        no_reasons(reasons);
        return ProbedSides {
            probing: Probing::Infeasible(untried(), untried()),
            row0: NO_ROW,
            row1: NO_ROW,
        };
    }
    let told = try_sides(n, m, ws, bounds, table, k, budget, reasons);
    let probing = told.probing;
    let Probing::Infeasible(_, _) = probing else {
        let len = bounds.len();
        let mut seen = [0i32; MAX_BOX];
        keep(n, ws, bounds, &mut seen[..len]);
        return told;
    };
    told
}

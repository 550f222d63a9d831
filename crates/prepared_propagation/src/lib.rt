// Propagate all rows (01's settle) of a prepared model: the passes are those of `row_passes`, but only rows are looked
// at that may move a bound.
#![tactic(auto)]

pub mod pass;
pub mod reasons;
mod search;

ghost use Rattle.std.specs.Prelude.{not, [], ◌≡◌, T};
ghost use Rattle.prepared_model.specs.Layout.{decode};
ghost use Rattle.prepared_model.specs.Reasons.{reasons_from};
ghost use Rattle.prepared_model.specs.RowReasons.{Lent};
ghost use Rattle.prepared_row.specs.Looking.{Looking};
ghost use Rattle.propagation.specs.Results.{propagation_of};
ghost use Rattle.row_set.specs.Readers.{Calm};
ghost use Rattle.semantics.specs.Propagate.{is_none, propagate_from};
ghost use Rattle.prepared_propagation.specs.Known.{Known};

use crate::pass::one_pass;
use crate::reasons::NO_ROW;
use crate::search::last_look;
use propagation::Propagation;

// How the passes ended, and the row that was infeasible, NO_ROW where none was: that number, as the C interface and
// the specification (`no_row`) have it.
#[derive(Clone, Copy)]
pub struct PreparedEnd {
    pub end: Propagation,
    pub row: u32,
}

// Passes until nothing moves, the budget's passes are made or a row is infeasible. The box is not empty.
// Reasons are told where the lent list is not empty: of each bound the row that moved it last.
pub fn propagate_prepared(
    n: usize,
    m: usize,
    ws: &[u32],
    bounds: &mut [i32],
    budget: u32,
    seen: &mut [i32],
    dirty: &mut [u32],
    reasons: &mut [u32],
) -> PreparedEnd
    requires { Looking n m ws.now bounds.old seen.old dirty.old × Lent n reasons.old }
    ensures answer { let W = ws.now in
        (Known n m W bounds.old dirty.old → propagation_of result.end bounds.new
        ≡ propagate_from budget 0 0 n m (decode n m W) bounds.old) }
    ensures calm { let W = ws.now in
        (Known n m W bounds.old dirty.old
        → Calm n m (decode n m W) bounds.new dirty.new) }
    ensures left { T (not (is_none (propagation_of result.end []).ending))
        → Looking n m ws.now bounds.new seen.new dirty.new }
    ensures reasons { let W = ws.now in
        (Known n m W bounds.old dirty.old → reasons.new
        ≡ (reasons_from budget n m (decode n m W) bounds.old reasons.old).movers) }
    ensures row { let W = ws.now in
        (Known n m W bounds.old dirty.old → result.row
        ≡ (reasons_from budget n m (decode n m W) bounds.old reasons.old).infeasible) }
{
    let mut moved: u32 = 0;
    for made in 0..budget {
        let p = one_pass(n, m, ws, bounds, seen, dirty, reasons);
        moved += p.moved;
        if let Some(last) = p.infeasible {
            return PreparedEnd {
                end: Propagation::Infeasible(made + 1, moved),
                row: last,
            };
        }
        if p.moved == 0 {
            return PreparedEnd {
                end: Propagation::Converged(made + 1, moved),
                row: NO_ROW,
            };
        }
    }
    PreparedEnd {
        end: last_look(n, m, ws, bounds, dirty, budget, moved),
        row: NO_ROW,
    }
}

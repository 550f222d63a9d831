// One pass over the rows of a prepared model. A row that hears of a bound that moved behind it waits for the next pass.
ghost use Rattle.std.specs.Prelude.{None, ◌≡◌, pos, ◌≤ℤ◌};
ghost use Rattle.model.specs.Box.{width};
ghost use Rattle.prepared_model.specs.Layout.{decode};
ghost use Rattle.prepared_model.specs.RowReasons.{Lent};
ghost use Rattle.prepared_row.specs.Looking.{Looking};
ghost use Rattle.prepared_propagation.specs.Known.{Known, PassLeft, PassTold};

use prepared_row::propagate_row_prepared;
use row::propagation::RowPropagation;
use row_set::next_row;

// The number of bounds moved, and the row that was infeasible, which ended the pass.
#[derive(Clone, Copy)]
pub struct PassEnd {
    pub moved: u32,
    pub infeasible: Option<u32>,
}

pub fn one_pass(
    n: usize,
    m: usize,
    ws: &[u32],
    bounds: &mut [i32],
    seen: &mut [i32],
    dirty: &mut [u32],
    reasons: &mut [u32],
) -> PassEnd
    requires { Looking n m ws.now bounds.old seen.old dirty.old × Lent n reasons.old }
    ensures told { let W = ws.now in
        (Known n m W bounds.old dirty.old
        → PassTold n m (decode n m W) bounds.old reasons.old result bounds.new
        dirty.new reasons.new) }
    ensures left { result.infeasible ≡ None → PassLeft n m ws.now bounds.old result.moved bounds.new
        seen.new dirty.new }
    ensures few { pos result.moved ≤ℤ width n bounds.old }
{
    let mut moved: u32 = 0;
    let mut r = next_row(m, dirty, 0);
    // From one row of the set to the next: the step is not 1.
    while r < m {
        match propagate_row_prepared(n, m, ws, r, bounds, seen, dirty, reasons) {
            RowPropagation::Infeasible => {
                return PassEnd {
                    moved: moved,
                    infeasible: Some(r as u32),
                };
            }
            RowPropagation::Tightened(more) => {
                moved += more;
            }
            RowPropagation::Unchanged => {}
        }
        r = next_row(m, dirty, r + 1);
    }
    PassEnd {
        moved: moved,
        infeasible: None,
    }
}

// What the two sides of a probe come to: the side that survives, their hull, and what they say in the implication
// table (`implications`).
#![tactic(auto)]

mod implications;

ghost use Rattle.std.specs.Prelude.{◌≡◌, cond, false, [], ℕ, ◌*◌, ◌<◌, ◌≤◌, get_or, length, take};
ghost use Rattle.model.specs.Box.{is_empty};
ghost use Rattle.model.specs.Valid.{ValidBox};
ghost use Rattle.semantics.specs.Probe.{join_sides, side_of};
ghost use Rattle.propagation.specs.Results.{propagation_of};
ghost use Rattle.row_index.specs.Index.{ColumnSigns};
ghost use Rattle.row_marks.specs.Marks.{Unread};
ghost use Rattle.two_sides.specs.Results.{probing_of, report_of, Joinable};

use crate::implications::record_implications;
use boxes::{copy_box, hull};
use model::MAX_BOX;
use propagation::Propagation;
use remarking::remark_all;

// A side's passes, whether its budget was spent, and the number of bounds that its rows moved.
#[derive(Clone, Copy)]
pub struct Side {
    pub passes: u32,
    pub spent: bool,
    pub moved: u32,
}

// 01's None; Fixed with the surviving side's value; Both with the number of table bytes that went from 0 to 1.
#[derive(Clone, Copy)]
pub enum Probing {
    Infeasible(Side, Side),
    Fixed(u32, Side, Side),
    BothFeasible(u32, Side, Side),
}

// What a side's propagation reports.
fn side_of(p: Propagation) -> Side
    ensures { report_of result ≡ side_of (propagation_of p []) }
{
    match p {
        Propagation::Infeasible(passes, moved) => Side {
            passes: passes,
            spent: false,
            moved: moved,
        },
        Propagation::Converged(passes, moved) => Side {
            passes: passes,
            spent: false,
            moved: moved,
        },
        Propagation::BudgetSpent(passes, moved) => Side {
            passes: passes,
            spent: true,
            moved: moved,
        },
    }
}

// A side that was not tried: the box is empty already.
pub fn untried() -> Side
    ensures { result ≡ record { passes = 0; spent = false; moved = 0 } }
{
    Side {
        passes: 0,
        spent: false,
        moved: 0,
    }
}

// Of the two side buffers, the part of the one whose box is not empty, handed on with its lifetime.
fn survivor<'a>(zero: &'a [i32], one: &'a [i32], len: usize) -> &'a [i32]
    requires { (2 ≤ len) × (len ≤ length zero.now) × (len ≤ length one.now) }
    ensures { (n : ℕ) → 0 < n → ValidBox n (take len zero.now) → result.now
        ≡ cond (is_empty n (take len zero.now)) (take len one.now)
        (take len zero.now) }
{
    if boxes::is_empty(&zero[..len]) {
        return &one[..len];
    }
    &zero[..len]
}

// What the two propagated sides come to. A side that is infeasible is set aside before the hull or the fixing.
pub fn join<'a>(
    n: usize,
    k: usize,
    s0: Propagation,
    s1: Propagation,
    zero: &'a [i32],
    one: &'a [i32],
    bounds: &mut [i32],
    table: &mut [u8],
) -> Probing
    requires { Joinable n k s0 s1 zero.now one.now bounds.old table.old }
    ensures { probing_of result bounds.new table.new
        ≡ join_sides n k bounds.old table.old
        (propagation_of s0 (take (2 * n) zero.now))
        (propagation_of s1 (take (2 * n) one.now)) }
{
    let len = bounds.len();
    let side0 = side_of(s0);
    let side1 = side_of(s1);
    let Propagation::Infeasible(_, _) = s0 else {
        let Propagation::Infeasible(_, _) = s1 else {
            let added = record_implications(n, k, bounds, &zero[..len], &one[..len], table);
            hull(&zero[..len], &one[..len], bounds);
            return Probing::BothFeasible(added, side0, side1);
        };
        copy_box(survivor(zero, one, len), bounds);
        return Probing::Fixed(0, side0, side1);
    };
    let Propagation::Infeasible(_, _) = s1 else {
        copy_box(survivor(zero, one, len), bounds);
        return Probing::Fixed(1, side0, side1);
    };
    boxes::make_empty(bounds);
    Probing::Infeasible(side0, side1)
}

// What the two propagated sides come to, and the marks of the box that is left: it lies inside the box before.
pub fn join_marked<'a>(
    n: usize,
    m: usize,
    k: usize,
    s0: Propagation,
    s1: Propagation,
    zero: &'a [i32],
    one: &'a [i32],
    bounds: &mut [i32],
    table: &mut [u8],
    coefs: &[i32],
    kinds: &[u8],
    signs: &mut [u8],
    marks: &mut [u8],
) -> Probing
    requires joinable { Joinable n k s0 s1 zero.now one.now bounds.old table.old }
    requires column_signs { ColumnSigns n m coefs.now signs.old × (m ≤ length kinds.now) × (m ≤ length marks.old) }
    ensures answer { probing_of result bounds.new table.new
        ≡ join_sides n k bounds.old table.old
        (propagation_of s0 (take (2 * n) zero.now))
        (propagation_of s1 (take (2 * n) one.now)) }
    ensures marks { (r : ℕ) → r < m → get_or marks.new r 0 ≡ 1 → (get_or marks.old r 0 ≡ 1)
        × ((j : ℕ) → j < n → Unread n coefs.now kinds.now r bounds.old
        bounds.new j) }
    ensures signs { ColumnSigns n m coefs.now signs.new }
{
    let len = bounds.len();
    let mut old = [0i32; MAX_BOX];
    copy_box(bounds, &mut old[..len]);
    let answer = join(n, k, s0, s1, zero, one, bounds, table);
    remark_all(n, m, coefs, kinds, signs, &mut old[..len], bounds, marks);
    answer
}

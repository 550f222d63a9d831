// One side of a probe: the box with the variable fixed, propagated by what is known of the rows of the box.
#![tactic(auto)]

ghost use Rattle.std.specs.Prelude.{◌≡◌, ◌⊎◌, ℕ, ◌*◌, ◌<◌, T, pos, length};
ghost use Rattle.model.specs.Box.{is_free};
ghost use Rattle.model.specs.Valid.{ValidModel};
ghost use Rattle.model.specs.Rows.{rows_of};
ghost use Rattle.model.specs.Model.{model_of};
ghost use Rattle.semantics.specs.Propagate.{propagate as propagated};
ghost use Rattle.semantics.specs.Probe.{fix};
ghost use Rattle.propagation.specs.Results.{propagation_of};
ghost use Rattle.row_index.specs.Index.{Index};
ghost use Rattle.probe_side.specs.Marked.{Marked, SideReady};

use boxes::copy_box;
use model::{MAX_BOX, MAX_ROWS};
use propagation::Propagation;
use remarking::remark_at;
use row_marks::copy_marks;
use row_passes::propagate_marked;

// The box of a side, fixed already, propagated. It lies inside the box before, so rows clean there are clean here, but
// for those that read the bound of k that moved (`kinded-kept`).
fn propagate_side(
    n: usize,
    m: usize,
    bounds: &[i32],
    coefs: &[i32],
    rhs: &[i32],
    kinds: &[u8],
    k: usize,
    budget: u32,
    across: &mut [u8],
    signs: &mut [u8],
    seen: &mut [i32],
    marks: &mut [u8],
    side: &mut [i32],
) -> Propagation
    requires { let A = rows_of coefs.now rhs.now kinds.now in
        SideReady n m bounds.now A k across.old signs.old seen.old marks.old side.old }
    ensures answer { let A = rows_of coefs.now rhs.now kinds.now in
        propagation_of result side.new
        ≡ propagated budget n m A side.old }
    ensures index { Index n m coefs.now across.new signs.new }
{
    copy_box(bounds, seen);
    remark_at(n, m, coefs, kinds, k, signs, seen, side, marks);
    propagate_marked(
        n, m, side, coefs, rhs, kinds, budget, across, signs, seen, marks,
    )
}

// Side v of k, in the lent buffer: the box with k fixed at v, propagated with the budget, by the index and the marks of
// the box.
pub fn try_side(
    n: usize,
    m: usize,
    bounds: &[i32],
    coefs: &[i32],
    rhs: &[i32],
    kinds: &[u8],
    k: usize,
    v: i32,
    budget: u32,
    across: &mut [u8],
    signs: &mut [u8],
    clean: &[u8],
    side: &mut [i32],
) -> Propagation
    requires valid_model { ValidModel (model_of n m bounds.now (rows_of coefs.now rhs.now kinds.now)) }
    requires t { T (is_free bounds.now k) }
    requires k_lt_n { k < n }
    requires fact { (v ≡ pos 0) ⊎ (v ≡ pos 1) }
    requires side_len { length side.old ≡ length bounds.now }
    requires fact_2 { let A = rows_of coefs.now rhs.now kinds.now in
        Marked n m bounds.now A across.old signs.old clean.now }
    ensures answer { let A = rows_of coefs.now rhs.now kinds.now in
        ((w : ℕ) → v ≡ pos w → propagation_of result side.new
        ≡ propagated budget n m A
        (fix n bounds.now k w)) }
    ensures index { Index n m coefs.now across.new signs.new }
{
    copy_box(bounds, side);
    side[2 * k] = v;
    side[2 * k + 1] = v;
    let len = bounds.len();
    let mut seen = [0i32; MAX_BOX];
    let mut marks = [0u8; MAX_ROWS];
    copy_marks(clean, &mut marks);
    propagate_side(
        n,
        m,
        bounds,
        coefs,
        rhs,
        kinds,
        k,
        budget,
        across,
        signs,
        &mut seen[..len],
        &mut marks,
        side,
    )
}

// The probing fixpoint (01's rest): a box that no row and no probe carried to its end would change.
#![tactic(auto)]

ghost use Rattle.std.specs.Prelude.{◌≡◌, ℕ, ◌*◌, ◌<◌, ◌≤◌, T, length, []};
ghost use Rattle.probe_side.specs.Marked.{Marked};
ghost use Rattle.model.specs.Box.{NonEmpty, hull as hulled, is_free, same_list};
ghost use Rattle.model.specs.Valid.{ValidModel};
ghost use Rattle.model.specs.Rows.{rows_of};
ghost use Rattle.model.specs.Model.{model_of};
ghost use Rattle.semantics.specs.Propagate.{is_none};
ghost use Rattle.row_index.specs.Index.{Index};
ghost use Rattle.propagation.specs.Results.{propagation_of};
ghost use Rattle.semantics.specs.FixpointTest.{first_moving};
ghost use Rattle.semantics.specs.RestTest.{first_unspanned, rest_of, sides_span, spans_at};
ghost use Rattle.rest.specs.Results.{rest_answer_of};

use boxes::{greater, is_free, lesser};
use model::{MAX_BOX, MAX_MATRIX, MAX_ROWS};
use probe_side::try_side;
use propagation::search::first_moving;
use propagation::{MAX_BUDGET, Propagation};

// 01's yes, and its no with what the search found: the lowest row whose propagation changes the box or, if none does,
// the lowest free variable whose sides do not span it.
#[derive(Clone, Copy)]
pub enum Rest {
    AtRest,
    ByRow(u32),
    ByVariable(u32),
}

// Whether the hull of two boxes is the box `bounds`.
fn hull_is(zero: &[i32], one: &[i32], bounds: &[i32]) -> bool
    requires zero_len { length zero.now ≡ length bounds.now }
    requires one_len { length one.now ≡ length bounds.now }
    ensures { (n : ℕ) → length bounds.now ≡ 2 * n → result
        ≡ same_list (hulled n zero.now one.now) bounds.now }
{
    for j in 0..bounds.len() / 2 {
        if lesser(zero[2 * j], one[2 * j]) != bounds[2 * j] {
            return false;
        }
        if greater(zero[2 * j + 1], one[2 * j + 1]) != bounds[2 * j + 1] {
            return false;
        }
    }
    true
}

fn is_infeasible(p: Propagation) -> bool
    ensures { result ≡ is_none (propagation_of p []).ending }
{
    let Propagation::Infeasible(_, _) = p else {
        return false;
    };
    true
}

// Whether both sides of k, propagated to their end, are not empty and span the box.
fn sides_span(
    n: usize,
    m: usize,
    bounds: &[i32],
    coefs: &[i32],
    rhs: &[i32],
    kinds: &[u8],
    k: usize,
    across: &mut [u8],
    signs: &mut [u8],
    marks: &[u8],
) -> bool
    requires valid_model { ValidModel (model_of n m bounds.now (rows_of coefs.now rhs.now kinds.now)) }
    requires t { T (is_free bounds.now k) }
    requires k_lt_n { k < n }
    requires fact { let A = rows_of coefs.now rhs.now kinds.now in
        Marked n m bounds.now A across.old signs.old marks.now }
    ensures answer { let A = rows_of coefs.now rhs.now kinds.now in
        result ≡ sides_span n m A bounds.now k }
    ensures index { Index n m coefs.now across.new signs.new }
{
    let len = bounds.len();
    let mut zero = [0i32; MAX_BOX];
    let s0 = try_side(
        n,
        m,
        bounds,
        coefs,
        rhs,
        kinds,
        k,
        0,
        MAX_BUDGET,
        across,
        signs,
        marks,
        &mut zero[..len],
    );
    if is_infeasible(s0) {
        return false;
    }
    let mut one = [0i32; MAX_BOX];
    let s1 = try_side(
        n,
        m,
        bounds,
        coefs,
        rhs,
        kinds,
        k,
        1,
        MAX_BUDGET,
        across,
        signs,
        marks,
        &mut one[..len],
    );
    if is_infeasible(s1) {
        return false;
    }
    hull_is(&zero[..len], &one[..len], bounds)
}

// Whether the sides of k span the box where it is free.
fn spans_at(
    n: usize,
    m: usize,
    bounds: &[i32],
    coefs: &[i32],
    rhs: &[i32],
    kinds: &[u8],
    k: usize,
    across: &mut [u8],
    signs: &mut [u8],
    marks: &[u8],
) -> bool
    requires valid_model { ValidModel (model_of n m bounds.now (rows_of coefs.now rhs.now kinds.now)) }
    requires k_lt_n { k < n }
    requires fact { let A = rows_of coefs.now rhs.now kinds.now in
        Marked n m bounds.now A across.old signs.old marks.now }
    ensures answer { let A = rows_of coefs.now rhs.now kinds.now in
        result ≡ spans_at n m A bounds.now k }
    ensures index { Index n m coefs.now across.new signs.new }
{
    if !is_free(bounds, k) {
        return true;
    }
    sides_span(n, m, bounds, coefs, rhs, kinds, k, across, signs, marks)
}

// The lowest free variable whose sides do not span the box, n if there is none.
fn first_unspanned_marked(
    n: usize,
    m: usize,
    bounds: &[i32],
    coefs: &[i32],
    rhs: &[i32],
    kinds: &[u8],
    across: &mut [u8],
    signs: &mut [u8],
    marks: &[u8],
) -> usize
    requires valid_model { ValidModel (model_of n m bounds.now (rows_of coefs.now rhs.now kinds.now)) }
    requires fact { let A = rows_of coefs.now rhs.now kinds.now in
        Marked n m bounds.now A across.old signs.old marks.now }
    ensures { let A = rows_of coefs.now rhs.now kinds.now in
        result ≡ first_unspanned n m A bounds.now }
{
    for k in 0..n {
        if !spans_at(n, m, bounds, coefs, rhs, kinds, k, across, signs, marks) {
            return k;
        }
    }
    n
}

// The same of a propagation fixpoint: each row is clean.
fn first_unspanned(
    n: usize,
    m: usize,
    bounds: &[i32],
    coefs: &[i32],
    rhs: &[i32],
    kinds: &[u8],
) -> usize
    requires valid_model { ValidModel (model_of n m bounds.now (rows_of coefs.now rhs.now kinds.now)) }
    requires fact { let A = rows_of coefs.now rhs.now kinds.now in
        NonEmpty n bounds.now × (m ≤ first_moving n m A bounds.now) }
    ensures { let A = rows_of coefs.now rhs.now kinds.now in
        result ≡ first_unspanned n m A bounds.now }
{
    let mut across = [0u8; MAX_MATRIX];
    let mut signs = [0u8; MAX_MATRIX];
    let marks = [1u8; MAX_ROWS];
    first_unspanned_marked(
        n,
        m,
        bounds,
        coefs,
        rhs,
        kinds,
        &mut across,
        &mut signs,
        &marks,
    )
}

// Whether the box of a model that passed the checks is a probing fixpoint, and what shows that it is none: the search
// through the rows, and through the variables after them, ends at the first that does.
pub fn test_rest(
    n: usize,
    m: usize,
    bounds: &[i32],
    coefs: &[i32],
    rhs: &[i32],
    kinds: &[u8],
) -> Rest
    requires { ValidModel (model_of n m bounds.now (rows_of coefs.now rhs.now kinds.now)) }
    ensures { let A = rows_of coefs.now rhs.now kinds.now in
        rest_answer_of result ≡ rest_of n m A bounds.now }
{
    if boxes::is_empty(bounds) {
        return Rest::AtRest;
    }
    let marks = [0u8; MAX_ROWS];
    let r = first_moving(n, m, bounds, coefs, rhs, kinds, &marks);
    if r < m {
        return Rest::ByRow(r as u32);
    }
    let k = first_unspanned(n, m, bounds, coefs, rhs, kinds);
    if k < n {
        return Rest::ByVariable(k as u32);
    }
    Rest::AtRest
}

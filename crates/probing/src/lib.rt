// Probe a free binary variable (01's probe): propagate with it at 0 and at 1, and keep what both sides say. Of a model
// that passed the checks.
#![tactic(auto)]

ghost use Rattle.std.specs.Prelude.{◌≡◌, ◌||◌, ◌*◌, ◌<◌, T, length, take};
ghost use Rattle.model.specs.Box.{is_empty, is_free};
ghost use Rattle.model.specs.Limits.{max_box};
ghost use Rattle.model.specs.Valid.{ValidModel, ValidTable};
ghost use Rattle.model.specs.Rows.{rows_of};
ghost use Rattle.model.specs.Model.{model_of};
ghost use Rattle.semantics.specs.Propagate.{propagate as propagated};
ghost use Rattle.semantics.specs.Probe.{fix, probe as probed};
ghost use Rattle.propagation.specs.Results.{propagation_of};
ghost use Rattle.two_sides.specs.Results.{probing_of};
ghost use Rattle.probe_side.specs.Marked.{Marked};

use marked_row::clean::find_clean;
use model::{MAX_BOX, MAX_MATRIX, MAX_ROWS};
use probe_side::try_side;
use propagation::Propagation;
use two_sides::{Probing, join_marked, untried};

// The rest of a probe of the free variable k whose side 0 is propagated: side 1, and what the two come to.
fn finish_probe<'a>(
    n: usize,
    m: usize,
    bounds: &mut [i32],
    coefs: &[i32],
    rhs: &[i32],
    kinds: &[u8],
    table: &mut [u8],
    k: usize,
    budget: u32,
    s0: Propagation,
    zero: &'a [i32],
    across: &mut [u8],
    signs: &mut [u8],
    marks: &mut [u8],
) -> Probing
    requires valid_model { ValidModel (model_of n m bounds.old (rows_of coefs.now rhs.now kinds.now)) }
    requires valid_table { ValidTable n table.old }
    requires t { T (is_free bounds.old k) }
    requires k_lt_n { k < n }
    requires zero_len { (length zero.now ≡ max_box) × (propagation_of s0 (take (2 * n) zero.now)
        ≡ propagated budget n m (rows_of coefs.now rhs.now kinds.now) (fix n bounds.old k 0)) }
    requires fact { let A = rows_of coefs.now rhs.now kinds.now in
        Marked n m bounds.old A across.old signs.old marks.old }
    ensures answer { let A = rows_of coefs.now rhs.now kinds.now in
        probing_of result bounds.new table.new
        ≡ probed k budget n m A bounds.old
        table.old }
    ensures marks { let A = rows_of coefs.now rhs.now kinds.now in
        Marked n m bounds.new A across.new
        signs.new marks.new }
{
    let len = bounds.len();
    let mut one = [0i32; MAX_BOX];
    let s1 = try_side(
        n,
        m,
        bounds,
        coefs,
        rhs,
        kinds,
        k,
        1,
        budget,
        across,
        signs,
        marks,
        &mut one[..len],
    );
    join_marked(
        n, m, k, s0, s1, zero, &one, bounds, table, coefs, kinds, signs, marks,
    )
}

// Probes the free binary variable k of a model that passed the checks, by its index and the marks of its box, which
// become those of the box that is left. The two sides' boxes are working memory of this call.
pub fn probe_marked(
    n: usize,
    m: usize,
    bounds: &mut [i32],
    coefs: &[i32],
    rhs: &[i32],
    kinds: &[u8],
    table: &mut [u8],
    k: usize,
    budget: u32,
    across: &mut [u8],
    signs: &mut [u8],
    marks: &mut [u8],
) -> Probing
    requires valid_model { ValidModel (model_of n m bounds.old (rows_of coefs.now rhs.now kinds.now)) }
    requires valid_table { ValidTable n table.old }
    requires t { T (is_empty n bounds.old || is_free bounds.old k) }
    requires k_lt_n { k < n }
    requires fact { let A = rows_of coefs.now rhs.now kinds.now in
        Marked n m bounds.old A across.old signs.old marks.old }
    ensures answer { let A = rows_of coefs.now rhs.now kinds.now in
        probing_of result bounds.new table.new
        ≡ probed k budget n m A bounds.old
        table.old }
    ensures marks { let A = rows_of coefs.now rhs.now kinds.now in
        Marked n m bounds.new A across.new
        signs.new marks.new }
{
    if boxes::is_empty(bounds) {
        return Probing::Infeasible(untried(), untried());
    }
    find_clean(n, m, bounds, coefs, rhs, kinds, across, marks);
    let len = bounds.len();
    let mut zero = [0i32; MAX_BOX];
    let s0 = try_side(
        n,
        m,
        bounds,
        coefs,
        rhs,
        kinds,
        k,
        0,
        budget,
        across,
        signs,
        marks,
        &mut zero[..len],
    );
    finish_probe(
        n, m, bounds, coefs, rhs, kinds, table, k, budget, s0, &zero, across, signs, marks,
    )
}

// The same of a model of which nothing is known yet.
pub fn probe(
    n: usize,
    m: usize,
    bounds: &mut [i32],
    coefs: &[i32],
    rhs: &[i32],
    kinds: &[u8],
    table: &mut [u8],
    k: usize,
    budget: u32,
) -> Probing
    requires valid_model { ValidModel (model_of n m bounds.old (rows_of coefs.now rhs.now kinds.now)) }
    requires valid_table { ValidTable n table.old }
    requires t { T (is_empty n bounds.old || is_free bounds.old k) }
    requires k_lt_n { k < n }
    ensures { let A = rows_of coefs.now rhs.now kinds.now in
        probing_of result bounds.new table.new
        ≡ probed k budget n m A bounds.old
        table.old }
{
    let mut across = [0u8; MAX_MATRIX];
    let mut signs = [0u8; MAX_MATRIX];
    let mut marks = [0u8; MAX_ROWS];
    probe_marked(
        n,
        m,
        bounds,
        coefs,
        rhs,
        kinds,
        table,
        k,
        budget,
        &mut across,
        &mut signs,
        &mut marks,
    )
}

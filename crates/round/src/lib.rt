// One round of `reduce`: propagate, remove redundant rows, tighten coefficients and probe. The model and the table are
// valid before it, and each call leaves them valid. Its calls are direct ones, made by the step of their kind, and pass
// their checks: a list would refuse those that change a row.
#![tactic(auto)]

ghost use Rattle.std.specs.Prelude.{◌≡◌};
ghost use Rattle.probe_side.specs.Marked.{Marked};
ghost use Rattle.model.specs.Valid.{ValidState};
ghost use Rattle.semantics.specs.Run.{run as ran};
ghost use Rattle.demands.specs.Unmoved.{any_spent};
ghost use Rattle.model.specs.Rows.{rows_of};
ghost use Rattle.model.specs.State.{state_of};
ghost use Rattle.rounds.specs.Round.{any_change, probes, round as round_of};

use boxes::is_free;
use call::class_of_propagation;
use model::{MAX_ROWS, MAX_VARIABLES};
use probe_step::run_probe_marked;
use round_rows::{is_changed, remove_rows, tighten_rows};
use row_passes::propagate;

// The passes of a round's propagation, and of each side of its probes.
const PASSES: u32 = 1_000;

// What calls did: whether a bound, row or table byte changed, and whether the budget of a probe's side was spent.
#[derive(Clone, Copy)]
pub struct Made {
    pub changed: bool,
    pub spent: bool,
}

// Probes each variable that is free when its turn comes, upwards, by the index of the rows and the marks of the box;
// says whether a bound or a table byte changed, and whether a side's budget was spent.
fn probe_variables_marked(
    n: usize,
    m: usize,
    bounds: &mut [i32],
    coefs: &[i32],
    rhs: &[i32],
    kinds: &[u8],
    table: &mut [u8],
    across: &mut [u8],
    signs: &mut [u8],
    marks: &mut [u8],
) -> Made
    requires valid_state { ValidState (state_of n m bounds.old (rows_of coefs.now rhs.now kinds.now) table.old) }
    requires fact { let A = rows_of coefs.now rhs.now kinds.now in
        Marked n m bounds.old A across.old signs.old marks.old }
    ensures left { let A = rows_of coefs.now rhs.now kinds.now in
        let s = state_of n m bounds.old A table.old in
        let r' = state_of n m bounds.new A table.new in
        r' ≡ ran s (probes s) }
    ensures changed { let A = rows_of coefs.now rhs.now kinds.now in
        let s = state_of n m bounds.old A table.old in
        result.changed ≡ any_change s (probes s) }
    ensures spent { let A = rows_of coefs.now rhs.now kinds.now in
        let s = state_of n m bounds.old A table.old in
        result.spent ≡ any_spent s (probes s) }
{
    let mut changed = false;
    let mut spent = false;
    for k in 0..n {
        if is_free(bounds, k) {
            let step = run_probe_marked(
                n, m, bounds, coefs, rhs, kinds, table, k as u32, PASSES, across, signs, marks,
            );
            spent |= step.spent;
            changed |= is_changed(step.class);
        }
    }
    Made { changed, spent }
}

// The same, of rows of which nothing is known yet. No probe changes a row, and each leaves a box inside the one
// before: what is known is kept from probe to probe.
fn probe_variables(
    n: usize,
    m: usize,
    bounds: &mut [i32],
    coefs: &[i32],
    rhs: &[i32],
    kinds: &[u8],
    table: &mut [u8],
) -> Made
    requires { ValidState (state_of n m bounds.old (rows_of coefs.now rhs.now kinds.now) table.old) }
    ensures left { let A = rows_of coefs.now rhs.now kinds.now in
        let s = state_of n m bounds.old A table.old in
        let r' = state_of n m bounds.new A table.new in
        r' ≡ ran s (probes s) }
    ensures changed { let A = rows_of coefs.now rhs.now kinds.now in
        let s = state_of n m bounds.old A table.old in
        result.changed ≡ any_change s (probes s) }
    ensures spent { let A = rows_of coefs.now rhs.now kinds.now in
        let s = state_of n m bounds.old A table.old in
        result.spent ≡ any_spent s (probes s) }
{
    let mut across = [0u8; MAX_ROWS * MAX_VARIABLES];
    let mut signs = [0u8; MAX_ROWS * MAX_VARIABLES];
    let mut marks = [0u8; MAX_ROWS];
    probe_variables_marked(
        n,
        m,
        bounds,
        coefs,
        rhs,
        kinds,
        table,
        &mut across,
        &mut signs,
        &mut marks,
    )
}

// One round; says whether anything changed, and whether a side of a probe was spent: its other calls are no probes,
// and the round's own propagation does not count. After None the box is empty, and no further call is made.
pub fn round(
    n: usize,
    m: usize,
    bounds: &mut [i32],
    coefs: &mut [i32],
    rhs: &mut [i32],
    kinds: &mut [u8],
    table: &mut [u8],
) -> Made
    requires { ValidState (state_of n m bounds.old (rows_of coefs.old rhs.old kinds.old) table.old) }
    ensures left { let A = rows_of coefs.old rhs.old kinds.old in
        let A' = rows_of coefs.new rhs.new kinds.new in
        let s = state_of n m bounds.old A table.old in
        let r' = state_of n m bounds.new A' table.new in
        r' ≡ ran s (round_of s) }
    ensures changed { let A = rows_of coefs.old rhs.old kinds.old in
        let s = state_of n m bounds.old A table.old in
        result.changed ≡ any_change s (round_of s) }
    ensures spent { let A = rows_of coefs.old rhs.old kinds.old in
        let s = state_of n m bounds.old A table.old in
        result.spent ≡ any_spent s (round_of s) }
{
    let propagation = propagate(n, m, bounds, coefs, rhs, kinds, PASSES);
    let mut changed = is_changed(class_of_propagation(propagation));
    changed |= remove_rows(n, m, bounds, coefs, rhs, kinds);
    changed |= tighten_rows(n, m, bounds, coefs, rhs, kinds);
    let probing = probe_variables(n, m, bounds, coefs, rhs, kinds, table);
    Made {
        changed: changed | probing.changed,
        spent: probing.spent,
    }
}

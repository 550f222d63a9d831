// An accepted probe, which lists and rounds make: how it counts, what it leaves, and whether the budget of a side was
// spent. It leaves the model valid.
#![tactic(auto)]

ghost use Rattle.std.specs.Prelude.{◌||◌, ◌≡◌};
ghost use Rattle.probe_side.specs.Marked.{Marked};
ghost use Rattle.model.specs.Rows.{rows_of};
ghost use Rattle.semantics.specs.CallChecks.{call_fault};
ghost use Rattle.model.specs.Valid.{ValidState};
ghost use Rattle.semantics.specs.Perform.{perform};
ghost use Rattle.semantics.specs.Run.{class_of, step};
ghost use Rattle.semantics.specs.Call.{call_of};
ghost use Rattle.demands.specs.Unmoved.{side_spent};
ghost use Rattle.model.specs.State.{state_of};
ghost use Rattle.call.specs.Classes.{class_is};

use boxes::{copy_box, same_box};
use call::CallClass;
use model::{MAX_ROWS, MAX_VARIABLES};
use probing::probe_marked;
use two_sides::{Probing, Side};

// What an accepted probe came to: its class, and whether the budget of a side was spent.
#[derive(Clone, Copy)]
pub struct ProbeStep {
    pub class: CallClass,
    pub spent: bool,
}

// The class of a probe with the flags of its two sides.
fn step_of(class: CallClass, s0: Side, s1: Side) -> ProbeStep
    ensures { (class_is result.class ≡ class_is class) × (result.spent ≡ (s0.spent || s1.spent)) }
{
    ProbeStep {
        class: class,
        spent: s0.spent | s1.spent,
    }
}

// An accepted probe, by the index of the rows and the marks of the box, which become those of the box that is left.
// Where both sides are feasible it changed something if a table byte became 1 or the hull is smaller than the box
// before, of which a copy is kept.
pub fn run_probe_marked(
    n: usize,
    m: usize,
    bounds: &mut [i32],
    coefs: &[i32],
    rhs: &[i32],
    kinds: &[u8],
    table: &mut [u8],
    variable: u32,
    budget: u32,
    across: &mut [u8],
    signs: &mut [u8],
    marks: &mut [u8],
) -> ProbeStep
    requires valid_state { ValidState (state_of n m bounds.old (rows_of coefs.now rhs.now kinds.now) table.old) }
    requires budget_value { let A = rows_of coefs.now rhs.now kinds.now in
        let s = state_of n m bounds.old A table.old in
        call_fault s (call_of s 3 0 variable budget) ≡ 0 }
    requires fact { let A = rows_of coefs.now rhs.now kinds.now in
        Marked n m bounds.old A across.old signs.old marks.old }
    ensures class { let A = rows_of coefs.now rhs.now kinds.now in
        let s = state_of n m bounds.old A table.old in
        class_is result.class ≡ class_of s (call_of s 3 0 variable budget) }
    ensures left { let A = rows_of coefs.now rhs.now kinds.now in
        let s = state_of n m bounds.old A table.old in
        let r' = state_of n m bounds.new A table.new in
        r' ≡ step s (call_of s 3 0 variable budget) }
    ensures spent { let A = rows_of coefs.now rhs.now kinds.now in
        let s = state_of n m bounds.old A table.old in
        result.spent ≡ side_spent (perform s (call_of s 3 0 variable budget)).answer }
    ensures marks { let A = rows_of coefs.now rhs.now kinds.now in
        Marked n m bounds.new A across.new signs.new marks.new }
{
    let len = bounds.len();
    let mut before = [0i32; 2 * MAX_VARIABLES];
    copy_box(bounds, &mut before[..len]);
    match probe_marked(
        n,
        m,
        bounds,
        coefs,
        rhs,
        kinds,
        table,
        variable as usize,
        budget,
        across,
        signs,
        marks,
    ) {
        Probing::Infeasible(s0, s1) => step_of(CallClass::Infeasible, s0, s1),
        Probing::Fixed(_, s0, s1) => step_of(CallClass::Changed, s0, s1),
        Probing::BothFeasible(added, s0, s1) => {
            if added != 0 {
                return step_of(CallClass::Changed, s0, s1);
            }
            if same_box(&before[..len], bounds) {
                return step_of(CallClass::Unchanged, s0, s1);
            }
            step_of(CallClass::Changed, s0, s1)
        }
    }
}

// The same of a model of which nothing is known yet.
pub fn run_probe(
    n: usize,
    m: usize,
    bounds: &mut [i32],
    coefs: &[i32],
    rhs: &[i32],
    kinds: &[u8],
    table: &mut [u8],
    variable: u32,
    budget: u32,
) -> CallClass
    requires valid_state { ValidState (state_of n m bounds.old (rows_of coefs.now rhs.now kinds.now) table.old) }
    requires budget_value { let A = rows_of coefs.now rhs.now kinds.now in
        let s = state_of n m bounds.old A table.old in
        call_fault s (call_of s 3 0 variable budget) ≡ 0 }
    ensures class { let A = rows_of coefs.now rhs.now kinds.now in
        let s = state_of n m bounds.old A table.old in
        class_is result ≡ class_of s (call_of s 3 0 variable budget) }
    ensures left { let A = rows_of coefs.now rhs.now kinds.now in
        let s = state_of n m bounds.old A table.old in
        let r' = state_of n m bounds.new A table.new in
        r' ≡ step s (call_of s 3 0 variable budget) }
{
    let mut across = [0u8; MAX_ROWS * MAX_VARIABLES];
    let mut signs = [0u8; MAX_ROWS * MAX_VARIABLES];
    let mut marks = [0u8; MAX_ROWS];
    let step = run_probe_marked(
        n,
        m,
        bounds,
        coefs,
        rhs,
        kinds,
        table,
        variable,
        budget,
        &mut across,
        &mut signs,
        &mut marks,
    );
    step.class
}

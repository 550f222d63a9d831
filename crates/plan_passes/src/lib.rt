// An upper limit on the passes that a call list makes, whatever the rows are (02, C-17).
#![tactic(auto)]

ghost use Rattle.std.specs.Prelude.{◌≡◌, ℕ, ◌≤◌, length};
ghost use Rattle.semantics.specs.Call.{kind_of};
ghost use Rattle.demands.specs.Passes.{call_limit, pass_limit};
ghost use Rattle.plan.specs.Answers.{passes_answer, passes_are, passes_call};
ghost use Rattle.plan.specs.Meaning.{EnoughFor, PassesAtMost};
ghost use Rattle.plan.specs.PlanChecks.{list_fits};

use call::{PROBE, PROPAGATE};
use model::refusal::Refusal;
use plan::PassLimit;
use plan::bounds::{check_bounds, total_width};

// 1,000,000 records.
const MAX_NUMBERS: usize = 4_000_000;

// Whether a list of `len` numbers has four to a record and no more than 1,000,000 records.
fn list_fits(len: usize) -> bool
    ensures { result ≡ list_fits len }
{
    len % 4 == 0 && len <= MAX_NUMBERS
}

// What a record of this kind and budget counts, where the box is `width` wide. The kind is a number, as C's list has it.
fn call_limit(width: u32, kind: u32, budget: u32) -> u64
    ensures { (result ≡ call_limit width (kind_of kind) budget) × (result ≤ 8589934590) }
{
    let most = (budget as u64).min(width as u64 + 1);
    match kind {
        PROPAGATE => most,
        PROBE => 2 * most,
        _ => 0,
    }
}

fn pass_limit(width: u32, calls: &[u32]) -> u64
    requires { length calls.now ≤ 4000000 }
    ensures { result ≡ pass_limit width calls.now }
{
    let mut sum: u64 = 0;
    for i in 0..calls.len() / 4 {
        sum += call_limit(width, calls[4 * i], calls[4 * i + 3]);
    }
    sum
}

// The width and the budget as `width` tells them, and an upper limit on the passes that the list makes. Refused by 3,
// 5 (of the list too: numbers not four to a record, or over 1,000,000 records), 6, 7 and 23. `meaning`: on no model
// with these bounds, and with no table, the list makes more passes.
pub fn passes(n: usize, bounds: &[i32], calls: &[u32]) -> Result<PassLimit, Refusal>
    ensures defined { passes_answer result ≡ passes_call n bounds.now calls.now }
    ensures meaning { (w b p : ℕ) → passes_answer result ≡ passes_are w b p
        → EnoughFor n bounds.now b × PassesAtMost n bounds.now calls.now p }
{
    check_bounds(n, bounds, list_fits(calls.len()))?;
    let width = total_width(n, bounds);
    Ok(PassLimit {
        width,
        budget: width + 1,
        passes: pass_limit(width, calls),
    })
}

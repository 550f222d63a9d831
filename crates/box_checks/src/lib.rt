// Checks 6, 7 and 23 of the bounds. Most boxes pass, and a loop for each check is two too many then: one loop asks of
// each variable whether its bounds are in range, in order and no more than 4,096 apart, and where all are, the three
// checks are passed. Any other box, the empty one too, is looked at check by check.
#![tactic(auto)]

ghost use Rattle.std.specs.Prelude.{◌≡◌, ◌/◌, ◌+ℤ◌, length};
ghost use Rattle.integer.specs.Index.{all};
ghost use Rattle.integer.specs.Order.{min_z};
ghost use Rattle.model.specs.Checks.{box_checks, first};
ghost use Rattle.model.specs.Limits.{max_bound, max_width};
ghost use Rattle.model.specs.Refusals.{fault_of};
ghost use Rattle.box_checks.specs.Plain.{plain_at};

use model::refusal::Refusal;
use model::{MAX_BOUND, MAX_WIDTH, MIN_BOUND};

// The greatest upper bound beside the lower bound `low`. No sum overflows, whatever `low` is.
fn highest(low: i32) -> i32
    ensures { result ≡ min_z (low +ℤ max_width) max_bound }
{
    if low <= 28_671 {
        return low + MAX_WIDTH;
    }
    MAX_BOUND
}

// Whether the bounds of every variable are in range, in order and no more than 4,096 apart.
fn is_plain(bounds: &[i32]) -> bool
    ensures { result ≡ all (length bounds.now / 2) (plain_at bounds.now) }
{
    let mut ok = true;
    for j in 0..bounds.len() / 2 {
        let low = bounds[2 * j];
        let high = bounds[2 * j + 1];
        let most = highest(low);
        ok &= (MIN_BOUND <= low) & (low <= high) & (high <= most);
    }
    ok
}

// Refuses by the first check that fails.
pub fn check_box(n: usize, bounds: &[i32]) -> Result<(), Refusal>
    ensures { fault_of result ≡ first (box_checks n bounds.now) }
{
    if bounds.len() % 2 == 0 {
        if is_plain(bounds) {
            return Ok(());
        }
    }
    model_checks::check_box(n, bounds)
}

// The total width of a box, and a budget that no propagation from it spends.
ghost use Rattle.std.specs.Prelude.{◌≡◌, ℕ, ◌<◌, ◌≤◌, pos, ◌-ℤ◌, ◌≤ℤ◌};
ghost use Rattle.integer.specs.Range.{Within};
ghost use Rattle.model.specs.Box.{NonEmpty, width as box_width};
ghost use Rattle.model.specs.Checks.{first};
ghost use Rattle.model.specs.Limits.{bound_size, max_variables};
ghost use Rattle.model.specs.Refusals.{fault_of};
ghost use Rattle.model.specs.Valid.{ValidBox};
ghost use Rattle.demands.specs.Passes.{total_width};
ghost use Rattle.plan.specs.Answers.{width_answer, width_call, width_is};
ghost use Rattle.plan.specs.Meaning.{EnoughFor};
ghost use Rattle.plan.specs.PlanChecks.{bounds_checks};

use crate::BoxBudget;
use boxes::is_empty;
use buffer_checks::is_product;
use model::refusal::Refusal;
use model_checks::{check_box, check_size};

// Checks 3, 5, 6, 7 and 23 of n and the bounds, in this order. `fits` says whether whatever else the call is lent has
// its length (5, with the bounds').
pub fn check_bounds(n: usize, bounds: &[i32], fits: bool) -> Result<(), Refusal>
    ensures { fault_of result ≡ first (bounds_checks n bounds.now fits) }
{
    check_size(n, 0)?;
    if !is_product(bounds.len(), 2, n) {
        return Err(Refusal::BufferLength);
    }
    if !fits {
        return Err(Refusal::BufferLength);
    }
    check_box(n, bounds)
}

// u − l of bounds in range, l not above u.
fn span(low: i32, high: i32) -> u32
    requires within { Within bound_size low }
    requires within_2 { Within bound_size high }
    requires low_le_high { low ≤ℤ high }
    ensures { pos result ≡ high -ℤ low }
{
    (high - low) as u32
}

// The sum of u − l, each from 0 to 4,096.
fn sum_of_spans(n: usize, bounds: &[i32]) -> u32
    requires { (n ≤ max_variables) × ValidBox n bounds.now × NonEmpty n bounds.now }
    ensures { pos result ≡ box_width n bounds.now }
{
    let mut sum: u32 = 0;
    for j in 0..n {
        sum += span(bounds[2 * j], bounds[2 * j + 1]);
    }
    sum
}

// The total width of a box that passed the checks: 0 for the empty box.
pub fn total_width(n: usize, bounds: &[i32]) -> u32
    requires { (0 < n) × (n ≤ max_variables) × ValidBox n bounds.now }
    ensures { (result ≡ total_width n bounds.now) × (result ≤ 524288) }
{
    if is_empty(bounds) {
        return 0;
    }
    sum_of_spans(n, bounds)
}

// The total width, and a budget that is never spent. Refused by 3, 5, 6, 7 and 23. `meaning`: no propagation of a
// model with these bounds spends that budget, which is one that check 15 lets through.
pub fn width(n: usize, bounds: &[i32]) -> Result<BoxBudget, Refusal>
    ensures defined { width_answer result ≡ width_call n bounds.now }
    ensures meaning { (w b : ℕ) → width_answer result ≡ width_is w b → EnoughFor n bounds.now b }
{
    check_bounds(n, bounds, true)?;
    let width = total_width(n, bounds);
    Ok(BoxBudget {
        width,
        budget: width + 1,
    })
}

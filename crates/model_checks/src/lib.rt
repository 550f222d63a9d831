// The checks that a model in memory passes before anything reads it, in the one order. They write nothing and require
// nothing: each answers for every n, m and buffer length.
#![tactic(auto)]

ghost use Rattle.std.specs.Prelude.{◌≡◌};
ghost use Rattle.model.specs.Checks.{first, none, table as lent, size_checks};
ghost use Rattle.model.specs.Checks.{length_checks, box_checks, number_checks, model_fault};
ghost use Rattle.model.specs.Model.{model_of};
ghost use Rattle.model.specs.Refusals.{fault_of};
ghost use Rattle.model.specs.Rows.{rows_of};

use buffer_checks::{
    in_range, is_bits, is_empty_box, is_narrow, is_ordered, is_product, is_table_length,
};
use model::refusal::Refusal;
use model::{MAX_BOUND, MAX_COEF, MAX_RHS, MAX_ROWS, MAX_VARIABLES, MIN_BOUND};

// Check 3: 3 where n or m is beyond its limit, else 0.
pub fn check_size(n: usize, m: usize) -> Result<(), Refusal>
    ensures { fault_of result ≡ first (size_checks n m) }
{
    if n < 1 {
        return Err(Refusal::Size);
    }
    if MAX_VARIABLES < n {
        return Err(Refusal::Size);
    }
    if MAX_ROWS < m {
        return Err(Refusal::Size);
    }
    Ok(())
}

// Check 5 for the model's buffers: 5 where one has not the length that n and m give, else 0.
pub fn check_lengths(
    n: usize,
    m: usize,
    bounds: &[i32],
    coefs: &[i32],
    rhs: &[i32],
    kinds: &[u8],
) -> Result<(), Refusal>
    ensures { let A = rows_of coefs.now rhs.now kinds.now in
        fault_of result ≡ first (length_checks (model_of n m bounds.now A)) }
{
    if !is_product(bounds.len(), 2, n) {
        return Err(Refusal::BufferLength);
    }
    if !is_product(coefs.len(), m, n) {
        return Err(Refusal::BufferLength);
    }
    let rhs_differ = rhs.len() != m;
    if rhs_differ {
        return Err(Refusal::BufferLength);
    }
    let kinds_differ = kinds.len() != m;
    if kinds_differ {
        return Err(Refusal::BufferLength);
    }
    Ok(())
}

// Checks 6, 7 and 23, each over all bounds before the next: the number of the first that fails, else 0.
pub fn check_box(n: usize, bounds: &[i32]) -> Result<(), Refusal>
    ensures { fault_of result ≡ first (box_checks n bounds.now) }
{
    if !in_range(bounds, MIN_BOUND, MAX_BOUND) {
        return Err(Refusal::Bound);
    }
    if !is_ordered(bounds) {
        if !is_empty_box(n, bounds) {
            return Err(Refusal::CrossedBounds);
        }
    }
    if !is_narrow(bounds) {
        return Err(Refusal::VariableTooWide);
    }
    Ok(())
}

// Those of the box, then 8, 9 and 16, each over all its numbers before the next: the number of the first that fails,
// else 0.
pub fn check_numbers(
    n: usize,
    bounds: &[i32],
    coefs: &[i32],
    rhs: &[i32],
    kinds: &[u8],
) -> Result<(), Refusal>
    ensures { let A = rows_of coefs.now rhs.now kinds.now in
        fault_of result ≡ first (number_checks n bounds.now A) }
{
    check_box(n, bounds)?;
    if !in_range(coefs, -MAX_COEF, MAX_COEF) {
        return Err(Refusal::Coefficient);
    }
    if !in_range(rhs, -MAX_RHS, MAX_RHS) {
        return Err(Refusal::RightSide);
    }
    if !is_bits(kinds) {
        return Err(Refusal::RowKind);
    }
    Ok(())
}

// The one chain of checks. The number by which a model in memory is refused, 0 where it is accepted: checks 3, 5, 6, 7,
// 23, 8 and 9. `fits` says whether every other buffer that the call is lent has its length (5, with the others).
pub fn check_model(
    n: usize,
    m: usize,
    bounds: &[i32],
    coefs: &[i32],
    rhs: &[i32],
    kinds: &[u8],
    fits: bool,
) -> Result<(), Refusal>
    ensures { let A = rows_of coefs.now rhs.now kinds.now in
        fault_of result ≡ model_fault (model_of n m bounds.now A) none fits }
{
    check_size(n, m)?;
    check_lengths(n, m, bounds, coefs, rhs, kinds)?;
    if !fits {
        return Err(Refusal::BufferLength);
    }
    check_numbers(n, bounds, coefs, rhs, kinds)
}

// The same with a table, whose length is one of those that must fit, and then check 10.
pub fn check_model_with_table(
    n: usize,
    m: usize,
    bounds: &[i32],
    coefs: &[i32],
    rhs: &[i32],
    kinds: &[u8],
    table: &[u8],
    fits: bool,
) -> Result<(), Refusal>
    ensures { let A = rows_of coefs.now rhs.now kinds.now in
        fault_of result
        ≡ model_fault (model_of n m bounds.now A)
        (lent table.now) fits }
{
    let all_fit = is_table_length(n, table.len()) && fits;
    check_model(n, m, bounds, coefs, rhs, kinds, all_fit)?;
    if !is_bits(table) {
        return Err(Refusal::TableByte);
    }
    Ok(())
}

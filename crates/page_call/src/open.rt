// The two open calls.
ghost use Rattle.std.specs.Prelude.{◌≡◌, length};
ghost use Rattle.model.specs.Checks.{first};
ghost use Rattle.model.specs.Refusals.{fault_of};
ghost use Rattle.pages.specs.PageChecks.{count_checks, lent_checks, page_checks};
ghost use Rattle.page_call.specs.Answers.{count_answer, count_call, pages_after, pages_answer, pages_call};

use crate::count::pages_needed;
use crate::sheet::write_all;
use buffer_checks::{is_bits, is_product};
use model::refusal::Refusal;
use model_checks::{check_box, check_size};

// The bytes of a page: 60 lines of 80 columns and a line feed each.
pub const PAGE: usize = 4_860;

// Checks 3 and 5 of n and the table, in this order.
fn check_lent(n: usize, table: &[u8]) -> Result<(), Refusal>
    ensures { fault_of result ≡ first (lent_checks n table.now) }
{
    check_size(n, 0)?;
    if !is_product(table.len(), 4 * n, n) {
        return Err(Refusal::BufferLength);
    }
    Ok(())
}

// Those, then 10.
fn check_count(n: usize, table: &[u8]) -> Result<(), Refusal>
    ensures { fault_of result ≡ first (count_checks n table.now) }
{
    check_lent(n, table)?;
    if !is_bits(table) {
        return Err(Refusal::TableByte);
    }
    Ok(())
}

// Checks 3, 5, 6, 7, 23 and 10 of what the pages are made of; `room` is the length of the buffer for them.
fn check_pages(n: usize, bounds: &[i32], table: &[u8], room: usize) -> Result<(), Refusal>
    ensures { fault_of result ≡ first (page_checks n bounds.now table.now room) }
{
    check_lent(n, table)?;
    if !is_product(bounds.len(), 2, n) {
        return Err(Refusal::BufferLength);
    }
    let rooms_differ = room != pages_needed(n, table) * PAGE;
    if rooms_differ {
        return Err(Refusal::BufferLength);
    }
    check_box(n, bounds)?;
    if !is_bits(table) {
        return Err(Refusal::TableByte);
    }
    Ok(())
}

// The number of pages. Refused by 3, 5 and 10.
pub fn page_count(n: usize, table: &[u8]) -> Result<usize, Refusal>
    ensures { count_answer result ≡ count_call n table.now }
{
    check_count(n, table)?;
    Ok(pages_needed(n, table))
}

// Writes the pages of a box and a table: 4,860 bytes each. Refused by 3, 5, 6, 7, 23 and 10.
pub fn write_pages(n: usize, bounds: &[i32], table: &[u8], pages: &mut [u8]) -> Result<(), Refusal>
    ensures answer { let room = length pages.old in
        pages_answer result ≡ pages_call n bounds.now table.now room }
    ensures pages { let after = pages_after n bounds.now table.now pages.old in
        pages.new ≡ after }
{
    check_pages(n, bounds, table, pages.len())?;
    write_all(n, bounds, table, pages);
    Ok(())
}

// The entries of the rows: 19, a column not below n or not above the one before, and 20, a zero coefficient.
ghost use Rattle.std.specs.Prelude.{◌≡◌, ◌+◌, ◌*◌, ◌≤◌, length};
ghost use Rattle.little_endian.specs.Pieces.{joined};
ghost use Rattle.model.specs.Checks.{first};
ghost use Rattle.model.specs.Refusals.{fault_of};
ghost use Rattle.sparse_layout.specs.SparseBook.{HoldsRows, count_at};
ghost use Rattle.sparse_layout.specs.SparseChecks.{all_entry_checks, entry_checks};

use little_endian::{read_i32, read_u16};
use model::refusal::Refusal;

// How many entries the row at p has.
pub fn row_count(book: &[u8], p: usize) -> u16
    requires { p + 7 ≤ length book.now }
    ensures { result ≡ count_at p book.now }
{
    read_u16(book, p + 5)
}

// 19 or 20 of entry e of the row at p: the column decides first.
fn check_entry(n: usize, book: &[u8], p: usize, e: usize) -> Result<(), Refusal>
    requires { p + 7 + e * 6 + 6 ≤ length book.now }
    ensures { fault_of result ≡ first (entry_checks n p book.now e) }
{
    let place = p + 7 + e * 6;
    let column = read_u16(book, place);
    if n <= column as usize {
        return Err(Refusal::Column);
    }
    if e != 0 {
        if column <= read_u16(book, place - 6) {
            return Err(Refusal::Column);
        }
    }
    if read_i32(book, place + 2) == 0 {
        return Err(Refusal::ZeroCoefficient);
    }
    Ok(())
}

// 19 or 20 of the first `count` entries of the row at p, by the entry read first.
fn check_row_entries(n: usize, book: &[u8], p: usize, count: usize) -> Result<(), Refusal>
    requires { p + 7 + count * 6 ≤ length book.now }
    ensures { fault_of result ≡ first (joined count (entry_checks n p book.now)) }
{
    for e in 0..count {
        check_entry(n, book, p, e)?;
    }
    Ok(())
}

// 19 or 20 of all rows, by the entry read first. The walk over the rows is known to stay within the book.
pub fn check_entries(n: usize, m: usize, book: &[u8]) -> Result<(), Refusal>
    requires { HoldsRows n m book.now }
    ensures { fault_of result ≡ first (all_entry_checks n m book.now) }
{
    let mut p = 8 * n;
    for i in 0..m {
        let count = row_count(book, p) as usize;
        check_row_entries(n, book, p, count)?;
        p += 7 + 6 * count;
    }
    Ok(())
}

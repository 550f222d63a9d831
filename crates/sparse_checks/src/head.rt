// The head of a sparse book: its trailer, and the walk over the rows from the trailer's offset to the trailer.
ghost use Rattle.std.specs.Prelude.{◌≡◌, ◌<◌, ◌≤◌, eqb, length};
ghost use Rattle.model.specs.Checks.{first};
ghost use Rattle.model.specs.Refusals.{fault_of};
ghost use Rattle.sparse_layout.specs.SparseBook.{row_start};
ghost use Rattle.sparse_layout.specs.SparseChecks.{sparse_frame_checks, sparse_head_checks};
ghost use Rattle.model.specs.Limits.{max_variables};

use crate::entries::row_count;
use book::layout::{
    ROWS, TRAILER, VARIABLES, check_given_length, rows_of, trailer_u16, variables_of,
};
use little_endian::read_u32;
use model::refusal::Refusal;
use model_checks::check_size;

// Checks 3 and 4 of the trailer's bytes, 4 of the offsets only: refused by the first that fails.
pub fn check_frame(trailer: &[u8]) -> Result<(), Refusal>
    requires { 16 ≤ length trailer.now }
    ensures { fault_of result ≡ first (sparse_frame_checks trailer.now) }
{
    let n = variables_of(trailer);
    let m = rows_of(trailer);
    check_size(n, m)?;
    if read_u32(trailer, 0) != 0 {
        return Err(Refusal::BookLayout);
    }
    if read_u32(trailer, 4) as usize != 8 * n {
        return Err(Refusal::BookLayout);
    }
    Ok(())
}

// Whether the walk over m rows ends at `end`. It goes on only where a row's first 7 bytes lie before `end`, so it reads
// nothing beyond, whatever the counts say.
fn walk_ends(n: usize, m: usize, book: &[u8], end: usize) -> bool
    requires { (n ≤ max_variables) × (end ≤ length book.now) × (end < 4_294_967_296) }
    ensures { result ≡ eqb (row_start n book.now m) end }
{
    let mut p = 8 * n;
    for i in 0..m {
        if end < p + 7 {
            return false;
        }
        p += 7 + 6 * (row_count(book, p) as usize);
    }
    p == end
}

// Checks 1 to 4 of a book: refused by the first that fails.
pub fn check_head(book: &[u8]) -> Result<(), Refusal>
    ensures { fault_of result ≡ first (sparse_head_checks book.now) }
{
    let len = book.len();
    if len < TRAILER {
        return Err(Refusal::ShortBook);
    }
    let end = len - TRAILER;
    let trailer = &book[end..];
    check_given_length(trailer, len)?;
    check_frame(trailer)?;
    let n = trailer_u16(book, VARIABLES);
    let m = trailer_u16(book, ROWS);
    if !walk_ends(n, m, book, end) {
        return Err(Refusal::BookLayout);
    }
    Ok(())
}

// Reading a sparse book: every check over the book's bytes, and only then the numbers into the lent buffers.
ghost use Rattle.std.specs.Prelude.{◌≡◌, ℕ};
ghost use Rattle.book.specs.Answers.{sizes_answer, sizes_are};
ghost use Rattle.model.specs.Model.{model_of};
ghost use Rattle.model.specs.Refusals.{fault_of};
ghost use Rattle.model.specs.Rows.{rows_of};
ghost use Rattle.sparse_layout.specs.SparseBook.{encode_sparse};
ghost use Rattle.sparse_calls.specs.SparseCalls.{sparse_bounds_read, sparse_coefs_read, sparse_kinds_read, sparse_read_call};
ghost use Rattle.sparse_calls.specs.SparseCalls.{sparse_read_fault, sparse_rhs_read, sparse_trailer_call};

use book::Sizes;
use book::layout::{ROWS, TRAILER, VARIABLES, rows_of, trailer_u16, variables_of};
use model::refusal::Refusal;
use sparse_checks::head::check_frame;
use sparse_reading::{check_layout, check_numbers, read_numbers};

// n and m of the 16 trailer bytes alone. Refused by 1, more than 16 bytes by 5, then 3 and 4, 4 for the offsets only.
pub fn trailer(bytes: &[u8]) -> Result<Sizes, Refusal>
    ensures { sizes_answer result ≡ sparse_trailer_call bytes.now }
{
    if bytes.len() < TRAILER {
        return Err(Refusal::ShortBook);
    }
    if TRAILER < bytes.len() {
        return Err(Refusal::BufferLength);
    }
    check_frame(bytes)?;
    Ok(Sizes {
        n: variables_of(bytes),
        m: rows_of(bytes),
    })
}

// All checks of a book and of the buffers that it is to be read into: refused by the first that fails.
fn check_book(
    book: &[u8],
    bounds: &[i32],
    coefs: &[i32],
    rhs: &[i32],
    kinds: &[u8],
) -> Result<(), Refusal>
    ensures { let A = rows_of coefs.now rhs.now kinds.now in
        fault_of result ≡ sparse_read_fault book.now bounds.now A }
{
    check_layout(book)?;
    let n = trailer_u16(book, VARIABLES);
    let m = trailer_u16(book, ROWS);
    model_checks::check_lengths(n, m, bounds, coefs, rhs, kinds)?;
    check_numbers(n, m, book)
}

// Reads a sparse book into lent buffers and answers n and m. Refused by 1 to 4, 19, 20, 5 to 9, 23 and 16; then nothing
// is written. Writing what was read gives the same book (`round_trip`).
pub fn read(
    book: &[u8],
    bounds: &mut [i32],
    coefs: &mut [i32],
    rhs: &mut [i32],
    kinds: &mut [u8],
) -> Result<Sizes, Refusal>
    ensures answer { let A = rows_of coefs.old rhs.old kinds.old in
        sizes_answer result ≡ sparse_read_call book.now bounds.old A }
    ensures bounds_read { let A = rows_of coefs.old rhs.old kinds.old in
        bounds.new ≡ sparse_bounds_read book.now bounds.old A }
    ensures coefs_read { let A = rows_of coefs.old rhs.old kinds.old in
        coefs.new ≡ sparse_coefs_read book.now bounds.old A }
    ensures rhs_read { let A = rows_of coefs.old rhs.old kinds.old in
        rhs.new ≡ sparse_rhs_read book.now bounds.old A }
    ensures kinds_read { let A = rows_of coefs.old rhs.old kinds.old in
        kinds.new ≡ sparse_kinds_read book.now bounds.old A }
    ensures round_trip { let A' = rows_of coefs.new rhs.new kinds.new in
        ((n m : ℕ) → sizes_answer result ≡ sizes_are n m →
        encode_sparse (model_of n m bounds.new A') ≡ book.now) }
{
    check_book(book, bounds, coefs, rhs, kinds)?;
    let n = trailer_u16(book, VARIABLES);
    let m = trailer_u16(book, ROWS);
    read_numbers(n, m, book, bounds, coefs, rhs, kinds);
    Ok(Sizes { n, m })
}

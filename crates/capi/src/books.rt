// The calls on books.
ghost use Rattle.std.specs.Prelude.{◌≡◌};
ghost use Rattle.book.specs.Answers.{book_written, bounds_read, coefs_read, kinds_read, rhs_read, write_call};
ghost use Rattle.model.specs.Model.{model_of};
ghost use Rattle.model.specs.Rows.{rows_of};
ghost use Rattle.replies.specs.Replies.{book_reply, returned};
ghost use Rattle.exports.specs.Exports.{book_exported, lent_to, read_export, trailer_export};

use book_exports::{read_said, trailer_said, write_said};

// n and m of the 16 trailer bytes alone: {n, m}. Refused by 1, 5, 3, 4, in this order.
#[unsafe(no_mangle)]
pub extern "C" fn astrolabe_book_trailer(bytes: &[u8], answer: &mut [u64]) -> u32
    ensures { book_exported result answer.new ≡ trailer_export answer.old bytes.now }
{
    trailer_said(bytes, answer)
}

// Reads a book into lent buffers: {n, m}. The kinds become all 0. Refused by 1 to 7, 23, 8, 9.
#[unsafe(no_mangle)]
pub extern "C" fn astrolabe_book_read(
    book: &[u8],
    bounds: &mut [i32],
    coefs: &mut [i32],
    rhs: &mut [i32],
    kinds: &mut [u8],
    answer: &mut [u64],
) -> u32
    ensures answered { let A = rows_of coefs.old rhs.old kinds.old in
        book_exported result answer.new
        ≡ read_export answer.old book.now bounds.old A }
    ensures bounds_read { let A = rows_of coefs.old rhs.old kinds.old in
        let new = bounds_read book.now bounds.old A in
        bounds.new ≡ lent_to answer.old bounds.old new }
    ensures coefs_read { let A = rows_of coefs.old rhs.old kinds.old in
        let new = coefs_read book.now bounds.old A in
        coefs.new ≡ lent_to answer.old coefs.old new }
    ensures rhs_read { let A = rows_of coefs.old rhs.old kinds.old in
        let new = rhs_read book.now bounds.old A in
        rhs.new ≡ lent_to answer.old rhs.old new }
    ensures kinds_read { let A = rows_of coefs.old rhs.old kinds.old in
        let new = kinds_read book.now bounds.old A in
        kinds.new ≡ lent_to answer.old kinds.old new }
{
    read_said(book, bounds, coefs, rhs, kinds, answer)
}

// Writes a model as a book; the number says all. Refused by the model's checks, then by 17.
#[unsafe(no_mangle)]
pub extern "C" fn astrolabe_book_write(
    n: usize,
    m: usize,
    bounds: &[i32],
    coefs: &[i32],
    rhs: &[i32],
    kinds: &[u8],
    book: &mut [u8],
) -> u32
    ensures number { let A = rows_of coefs.now rhs.now kinds.now in
        let M = model_of n m bounds.now A in
        result ≡ returned (book_reply (write_call M book.old)) }
    ensures book_written { let A = rows_of coefs.now rhs.now kinds.now in
        let M = model_of n m bounds.now A in
        book.new ≡ book_written M book.old }
{
    write_said(n, m, bounds, coefs, rhs, kinds, book)
}

// The calls on sparse books, and from one edition to the other.
ghost use Rattle.std.specs.Prelude.{◌≡◌};
ghost use Rattle.model.specs.Model.{model_of};
ghost use Rattle.model.specs.Rows.{rows_of};
ghost use Rattle.replies.specs.Replies.{book_reply, returned};
ghost use Rattle.sparse_calls.specs.SparseCalls.{sparse_bounds_read, sparse_coefs_read, sparse_kinds_read};
ghost use Rattle.sparse_calls.specs.SparseCalls.{sparse_rhs_read, sparse_write_call, sparse_written, to_first_call};
ghost use Rattle.sparse_calls.specs.SparseCalls.{to_first_written, to_sparse_call, to_sparse_written};
ghost use Rattle.exports.specs.Exports.{book_exported, lent_to};
ghost use Rattle.exports.specs.SparseExports.{sparse_length_export, sparse_read_export};
ghost use Rattle.exports.specs.SparseExports.{sparse_trailer_export, to_sparse_length_export};

use book_replies::books::write_number;
use book_replies::sparse_books::{length_reply, read_fault};
use call_replies::sizes_reply;
use replies::reply::{ANSWER, answer_fault, put};
use sparse::reading::read;
use sparse::trailer;
use sparse::writing::{length, write};
use sparse_conversion::{to_first, to_sparse, to_sparse_length};

// The length of a book's trailer.
const TRAILER: usize = 16;

// n and m of the 16 trailer bytes alone: {n, m}. Refused by 1, 5, 3, 4, in this order; 4 is of the offsets only.
#[unsafe(no_mangle)]
pub extern "C" fn astrolabe_sparse_trailer(bytes: &[u8], answer: &mut [u64]) -> u32
    ensures { book_exported result answer.new ≡ sparse_trailer_export answer.old bytes.now }
{
    if answer.len() != ANSWER {
        if bytes.len() < TRAILER {
            return 1;
        }
        return 5;
    }
    put(sizes_reply(trailer(bytes)), answer)
}

// Reads a sparse book into lent buffers: {n, m}. Refused by 1 to 4, 19, 20, 5 to 7, 23, 8, 9, 16, in this order.
#[unsafe(no_mangle)]
pub extern "C" fn astrolabe_sparse_read(
    book: &[u8],
    bounds: &mut [i32],
    coefs: &mut [i32],
    rhs: &mut [i32],
    kinds: &mut [u8],
    answer: &mut [u64],
) -> u32
    ensures answered { let A = rows_of coefs.old rhs.old kinds.old in
        book_exported result answer.new
        ≡ sparse_read_export answer.old book.now bounds.old A }
    ensures bounds_read { let A = rows_of coefs.old rhs.old kinds.old in
        let new = sparse_bounds_read book.now bounds.old A in
        bounds.new ≡ lent_to answer.old bounds.old new }
    ensures coefs_read { let A = rows_of coefs.old rhs.old kinds.old in
        let new = sparse_coefs_read book.now bounds.old A in
        coefs.new ≡ lent_to answer.old coefs.old new }
    ensures rhs_read { let A = rows_of coefs.old rhs.old kinds.old in
        let new = sparse_rhs_read book.now bounds.old A in
        rhs.new ≡ lent_to answer.old rhs.old new }
    ensures kinds_read { let A = rows_of coefs.old rhs.old kinds.old in
        let new = sparse_kinds_read book.now bounds.old A in
        kinds.new ≡ lent_to answer.old kinds.old new }
{
    if answer.len() != ANSWER {
        return read_fault(book);
    }
    put(sizes_reply(read(book, bounds, coefs, rhs, kinds)), answer)
}

// Writes a model as a sparse book; the number says all. Refused by the model's checks.
#[unsafe(no_mangle)]
pub extern "C" fn astrolabe_sparse_write(
    n: usize,
    m: usize,
    bounds: &[i32],
    coefs: &[i32],
    rhs: &[i32],
    kinds: &[u8],
    book: &mut [u8],
) -> u32
    ensures number { let A = rows_of coefs.now rhs.now kinds.now in
        let M = model_of n m bounds.now A in
        result ≡ returned (book_reply (sparse_write_call M book.old)) }
    ensures book_written { let A = rows_of coefs.now rhs.now kinds.now in
        let M = model_of n m bounds.now A in
        book.new ≡ sparse_written M book.old }
{
    write_number(write(n, m, bounds, coefs, rhs, kinds, book))
}

// How many bytes the sparse book of a model has: {bytes}. Refused by the model's checks.
#[unsafe(no_mangle)]
pub extern "C" fn astrolabe_sparse_length(
    n: usize,
    m: usize,
    bounds: &[i32],
    coefs: &[i32],
    rhs: &[i32],
    kinds: &[u8],
    answer: &mut [u64],
) -> u32
    ensures { let A = rows_of coefs.now rhs.now kinds.now in
        let M = model_of n m bounds.now A in
        book_exported result answer.new ≡ sparse_length_export answer.old M }
{
    if answer.len() != ANSWER {
        return answer_fault(n, m);
    }
    put(
        length_reply(length(n, m, bounds, coefs, rhs, kinds)),
        answer,
    )
}

// How many bytes the sparse edition of a first-edition book has: {bytes}. Refused as the book's reading is.
#[unsafe(no_mangle)]
pub extern "C" fn astrolabe_book_to_sparse_length(book: &[u8], answer: &mut [u64]) -> u32
    ensures { book_exported result answer.new ≡ to_sparse_length_export answer.old book.now }
{
    if answer.len() != ANSWER {
        return book_replies::books::read_fault(book);
    }
    put(length_reply(to_sparse_length(book)), answer)
}

// A first-edition book as a sparse one; the number says all. Refused as the book's reading is, 5 being of `to`.
#[unsafe(no_mangle)]
pub extern "C" fn astrolabe_book_to_sparse(from: &[u8], to: &mut [u8]) -> u32
    ensures number { result ≡ returned (book_reply (to_sparse_call from.now to.old)) }
    ensures book_written { to.new ≡ to_sparse_written from.now to.old }
{
    write_number(to_sparse(from, to))
}

// A sparse book as a first-edition one; the number says all. Refused as the book's reading is, 5 being of `to`, and
// then by 17.
#[unsafe(no_mangle)]
pub extern "C" fn astrolabe_sparse_to_book(from: &[u8], to: &mut [u8]) -> u32
    ensures number { result ≡ returned (book_reply (to_first_call from.now to.old)) }
    ensures book_written { to.new ≡ to_first_written from.now to.old }
{
    write_number(to_first(from, to))
}

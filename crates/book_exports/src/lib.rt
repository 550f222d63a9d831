// The calls on books as C is told of them: behind one check more, of the answer's length, and with the answer written
// into its places.
#![tactic(auto)]

ghost use Rattle.std.specs.Prelude.{◌≡◌};
ghost use Rattle.book.specs.Answers.{book_written, bounds_read, coefs_read, kinds_read, rhs_read, write_call};
ghost use Rattle.exports.specs.Exports.{book_exported, lent_to, read_export, trailer_export};
ghost use Rattle.model.specs.Model.{model_of};
ghost use Rattle.model.specs.Rows.{rows_of};
ghost use Rattle.replies.specs.Replies.{book_reply, returned};

use book::trailer;
use book_reading::read;
use book_replies::books::{read_fault, trailer_fault, write_number};
use book_writing::write;
use call_replies::sizes_reply;
use replies::reply::{ANSWER, put};

// What C is told by `astrolabe_book_trailer`.
pub fn trailer_said(bytes: &[u8], answer: &mut [u64]) -> u32
    ensures { book_exported result answer.new ≡ trailer_export answer.old bytes.now }
{
    if answer.len() != ANSWER {
        return trailer_fault(bytes);
    }
    put(sizes_reply(trailer(bytes)), answer)
}

// What C is told by `astrolabe_book_read`.
pub fn read_said(
    book: &[u8],
    bounds: &mut [i32],
    coefs: &mut [i32],
    rhs: &mut [i32],
    kinds: &mut [u8],
    answer: &mut [u64],
) -> u32
    ensures answered { let A = rows_of coefs.old rhs.old kinds.old in
        book_exported result answer.new
        ≡ read_export answer.old book.now bounds.old A }
    ensures bounds_read { let A = rows_of coefs.old rhs.old kinds.old in
        let new = bounds_read book.now bounds.old A in
        bounds.new ≡ lent_to answer.old bounds.old new }
    ensures coefs_read { let A = rows_of coefs.old rhs.old kinds.old in
        let new = coefs_read book.now bounds.old A in
        coefs.new ≡ lent_to answer.old coefs.old new }
    ensures rhs_read { let A = rows_of coefs.old rhs.old kinds.old in
        let new = rhs_read book.now bounds.old A in
        rhs.new ≡ lent_to answer.old rhs.old new }
    ensures kinds_read { let A = rows_of coefs.old rhs.old kinds.old in
        let new = kinds_read book.now bounds.old A in
        kinds.new ≡ lent_to answer.old kinds.old new }
{
    if answer.len() != ANSWER {
        return read_fault(book);
    }
    put(sizes_reply(read(book, bounds, coefs, rhs, kinds)), answer)
}

// What C is told by `astrolabe_book_write`.
pub fn write_said(
    n: usize,
    m: usize,
    bounds: &[i32],
    coefs: &[i32],
    rhs: &[i32],
    kinds: &[u8],
    book: &mut [u8],
) -> u32
    ensures number { let A = rows_of coefs.now rhs.now kinds.now in
        let M = model_of n m bounds.now A in
        result ≡ returned (book_reply (write_call M book.old)) }
    ensures book_written { let A = rows_of coefs.now rhs.now kinds.now in
        let M = model_of n m bounds.now A in
        book.new ≡ book_written M book.old }
{
    write_number(write(n, m, bounds, coefs, rhs, kinds, book))
}

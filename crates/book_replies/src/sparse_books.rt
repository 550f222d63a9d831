// The same of the calls on sparse books.
ghost use Rattle.std.specs.Prelude.{◌≡◌};
ghost use Rattle.replies.specs.Replies.{numbered_reply, reply_of, wrong_length};
ghost use Rattle.sparse_layout.specs.SparseChecks.{sparse_layout_checks};
ghost use Rattle.sparse_calls.specs.SparseCalls.{length_answer};
ghost use Rattle.book_replies.specs.SparseReplies.{length_reply};

use model::refusal::Refusal;
use replies::numbered::Numbered;
use replies::reply::Reply;
use sparse_reading::check_layout;

pub fn length_reply<E: Numbered>(a: Result<usize, E>) -> Reply
    ensures { reply_of result ≡ numbered_reply E.number (λ r. length_reply (length_answer r)) a }
{
    match a {
        Err(refusal) => Reply::Refused(refusal.number()),
        Ok(count) => Reply::Numbers(count as u64, 0, 0, 0),
    }
}

// The number by which reading a sparse book refuses an answer buffer of a wrong length: 1 to 4, 19 or 20, else 5.
pub fn read_fault(book: &[u8]) -> u32
    ensures { result ≡ wrong_length (sparse_layout_checks book.now) }
{
    match check_layout(book) {
        Err(refusal) => refusal.number(),
        Ok(()) => Refusal::BufferLength.number(),
    }
}

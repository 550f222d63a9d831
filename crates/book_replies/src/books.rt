// What the calls on books say where they do not answer by `put`, and the number of a wrong answer length.
ghost use Rattle.std.specs.Prelude.{◌∷◌, [], ◌≡◌, leb, length};
ghost use Rattle.model.specs.Checks.{must};
ghost use Rattle.book.specs.Answers.{write_answer};
ghost use Rattle.book.specs.BookChecks.{head_checks};
ghost use Rattle.replies.specs.Replies.{book_reply, numbered_reply, returned, wrong_length};

use book::layout::{TRAILER, check_head};
use model::refusal::Refusal;
use replies::numbered::Numbered;

// C is told numbers: the one by which a call on a trailer refuses an answer buffer of a wrong length, 1, else 5.
pub fn trailer_fault(bytes: &[u8]) -> u32
    ensures { result ≡ wrong_length (must (leb 16 (length bytes.now)) 1 ∷ []) }
{
    if bytes.len() < TRAILER {
        return Refusal::ShortBook.number();
    }
    Refusal::BufferLength.number()
}

// The number by which a call that reads a book refuses an answer buffer of a wrong length: 1 to 4, else 5.
pub fn read_fault(book: &[u8]) -> u32
    ensures { result ≡ wrong_length (head_checks book.now) }
{
    match check_head(book) {
        Err(refusal) => refusal.number(),
        Ok(()) => Refusal::BufferLength.number(),
    }
}

pub fn write_number<E: Numbered>(a: Result<(), E>) -> u32
    ensures { result ≡ returned (numbered_reply E.number (λ r. book_reply (write_answer r)) a) }
{
    match a {
        Err(refusal) => refusal.number(),
        Ok(()) => 0,
    }
}

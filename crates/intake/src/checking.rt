// Checks 1 to 4 of an input.
ghost use Rattle.std.specs.Prelude.{false, true, ◌≡◌, List, ℕ, ◌<◌, length};
ghost use Rattle.book.specs.Answers.{sizes_answer, sizes_are};
ghost use Rattle.book.specs.Book.{length_given};
ghost use Rattle.little_endian.specs.Bytes.{byte_count};
ghost use Rattle.intake.specs.Intake.{last_bytes};
ghost use Rattle.intake.specs.Checks.{SizedBook, TooLong, head_call, input_call, too_long};

use book::{Sizes, trailer};
use little_endian::BYTE;
use model::refusal::Refusal;

const TRAILER: usize = 16;

// A trailer gives a length in 32 bits.
const TOO_LONG: usize = 4_294_967_296;

fn wide(x: u8) -> usize
    ensures { (result ≡ x) × (result < byte_count) }
{
    x as usize
}

// The length that the trailer gives.
fn length_given(tail: &[u8]) -> usize
    requires { length tail.now ≡ 16 }
    ensures { result ≡ length_given tail.now }
{
    wide(tail[12]) + BYTE * (wide(tail[13]) + BYTE * (wide(tail[14]) + BYTE * wide(tail[15])))
}

// n and m of an input of `len` bytes that ends in `tail`. Refused by 1 to 4, and by 5 where `tail` has not 16 bytes.
pub fn sizes(tail: &[u8], len: usize) -> Result<Sizes, Refusal>
    ensures answer { sizes_answer result ≡ input_call tail.now len }
    ensures right { (bs : List ℕ) → len ≡ length bs → tail.now ≡ last_bytes bs → sizes_answer result ≡ head_call bs }
    ensures sized { (n m : ℕ) → sizes_answer result ≡ sizes_are n m → SizedBook n m len }
{
    let is_short = len < TRAILER;
    if is_short {
        return Err(Refusal::ShortBook);
    }
    if tail.len() != TRAILER {
        return Err(Refusal::BufferLength);
    }
    let given = length_given(tail);
    let is_other = given != len;
    if is_other {
        return Err(Refusal::BookLength);
    }
    trailer(tail)
}

// Whether so many bytes are too many for a book, whatever they are and whatever follows: check 2 refuses them.
pub fn is_too_long(len: usize) -> bool
    ensures refused { result ≡ true → TooLong len }
    ensures within { result ≡ false → len < too_long }
{
    TOO_LONG <= len
}

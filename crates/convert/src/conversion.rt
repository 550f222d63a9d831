// From an input to the bytes of the answer, in memory.
ghost use Rattle.std.specs.Prelude.{◌≡◌, List, ℕ, length};
ghost use Rattle.intake.specs.Intake.{Held};
ghost use Rattle.model.specs.Refusals.{fault_of};
ghost use Rattle.sparse_layout.specs.SparseChecks.{sparse_fault};
ghost use Rattle.convert.specs.Answers.{Fits, Framed, answer_bytes};
ghost use Rattle.convert.specs.Output.{first_edition, max_sparse, output, sparse_edition};

use crate::buffers::MAX_SPARSE;
use book::layout::{ROWS, VARIABLES, book_length, trailer_u16};
use intake::sizes;
use model::refusal::Refusal;
use sparse_conversion::{to_first, to_sparse, to_sparse_length};
use sparse_reading::{check_layout, check_numbers};

// What the first edition refuses by this check is read as a sparse book.
const OTHER_EDITION: Refusal = Refusal::BookLayout;

// All checks of a sparse book: refused by the first that fails.
fn check_sparse(book: &[u8]) -> Result<(), Refusal>
    ensures { fault_of result ≡ sparse_fault book.now }
{
    check_layout(book)?;
    let n = trailer_u16(book, VARIABLES);
    let m = trailer_u16(book, ROWS);
    check_numbers(n, m, book)
}

// The sparse edition of a first-edition book, at the start of the buffer: how many bytes it has.
fn sparse_edition(from: &[u8], to: &mut [u8]) -> Result<usize, Refusal>
    requires { max_sparse ≡ length to.old }
    ensures bytes { answer_bytes result to.new ≡ sparse_edition from.now }
    ensures fits { Fits result to.new }
{
    let len = to_sparse_length(from)?;
    // What has a length is accepted.
    let _ = to_sparse(from, &mut to[..len]);
    Ok(len)
}

// The first edition of a sparse book, at the start of the buffer: how many bytes it has.
fn first_edition(from: &[u8], to: &mut [u8]) -> Result<usize, Refusal>
    requires { Framed from.now × (max_sparse ≡ length to.old) }
    ensures bytes { answer_bytes result to.new ≡ first_edition from.now }
    ensures fits { Fits result to.new }
{
    let len = book_length(trailer_u16(from, VARIABLES), trailer_u16(from, ROWS));
    to_first(from, &mut to[..len])?;
    Ok(len)
}

// The book of the other edition of an input of `len` bytes that ends in `tail`; where it is no longer than `start`,
// `start` begins with it. What passes check 4 of the first edition is of the first, unless the sparse edition accepts
// it. Nothing of a longer input is converted: no book is as long.
#[tactic(auto, using(crate::proofs::ConvertLaws::long_refused), unfolding(crate::specs::Answers::answer_bytes, book::specs::Answers::sizes_answer))]
pub fn convert(start: &[u8], tail: &[u8], len: usize, to: &mut [u8]) -> Result<usize, Refusal>
    requires max_sparse_value { (max_sparse ≡ length start.now) × (max_sparse ≡ length to.old) }
    requires by_index { (bs : List ℕ) × Held bs start.now tail.now len }
    ensures bytes { (bs : List ℕ) → Held bs start.now tail.now len →
        answer_bytes result to.new ≡ output bs }
    ensures fits { Fits result to.new }
{
    if let Err(refusal) = sizes(tail, len) {
        let is_first = refusal.number() != OTHER_EDITION.number();
        if is_first {
            return Err(refusal);
        }
        if MAX_SPARSE < len {
            return Err(refusal);
        }
        return first_edition(&start[..len], to);
    }
    let book = &start[..len];
    let is_sparse = check_sparse(book).is_ok();
    if is_sparse {
        return first_edition(book, to);
    }
    sparse_edition(book, to)
}

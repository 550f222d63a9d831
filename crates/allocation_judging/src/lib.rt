// From an input of `allocations` to the verdicts of its proposals, in memory: the checks in their order, and the
// proposals held against the book.
#![tactic(auto)]

ghost use Rattle.std.specs.Prelude.{◌≡◌, ◌≤◌, length};
ghost use Rattle.allocation_input.specs.Judging.{Answers, Holdable, Room, Splits, verdicts_of};
ghost use Rattle.allocation_input.specs.Input.{max_input};
ghost use Rattle.book.specs.Book.{decode};
ghost use Rattle.book.specs.BookChecks.{model_number_checks};
ghost use Rattle.model.specs.Checks.{first};
ghost use Rattle.model.specs.Refusals.{fault_of};
ghost use Rattle.model.specs.Rows.{rows_of};

use allocation_input::{book_end, check_proposals, count_behind};
use book::Sizes;
use book::layout::{ROWS, VARIABLES, check_head, trailer_u16};
use book_reading::read;
use little_endian::integers::read_integers;
use model::refusal::Refusal;
use model::{MAX_BOX, MAX_MATRIX, MAX_ROWS};
use verdicts::check_allocations;

// 64 proposals of 128 numbers.
const MAX_NUMBERS: usize = 8_192;

// Reads the book and the proposals behind it into lent buffers, and holds them against each other. Refused by the first
// check of the book's numbers that fails.
fn hold_in(
    book: &[u8],
    behind: &[u8],
    count: u32,
    bounds: &mut [i32],
    coefs: &mut [i32],
    rhs: &mut [i32],
    kinds: &mut [u8],
    proposals: &mut [i32],
    verdicts: &mut [u32],
) -> Result<(), Refusal>
    requires holdable { Holdable book.now behind.now count verdicts.old }
    requires fact { let A = rows_of coefs.old rhs.old kinds.old in
        Room book.now count bounds.old A proposals.old }
    ensures fault { fault_of result ≡ first (model_number_checks (decode book.now)) }
    ensures told { fault_of result ≡ 0 → verdicts.new ≡ verdicts_of (decode book.now) count behind.now }
{
    read_integers(behind, 0, 4, proposals);
    let Sizes { n, m } = read(book, bounds, coefs, rhs, kinds)?;
    check_allocations(n, m, bounds, coefs, rhs, kinds, proposals, count, verdicts)
}

// The same in buffers of its own.
fn hold(book: &[u8], behind: &[u8], count: u32, verdicts: &mut [u32]) -> Result<(), Refusal>
    requires { Holdable book.now behind.now count verdicts.old }
    ensures fault { fault_of result ≡ first (model_number_checks (decode book.now)) }
    ensures told { fault_of result ≡ 0 → verdicts.new ≡ verdicts_of (decode book.now) count behind.now }
{
    let n = trailer_u16(book, VARIABLES);
    let m = trailer_u16(book, ROWS);
    let mut bounds = [0i32; MAX_BOX];
    let mut coefs = [0i32; MAX_MATRIX];
    let mut rhs = [0i32; MAX_ROWS];
    let mut kinds = [0u8; MAX_ROWS];
    let mut proposals = [0i32; MAX_NUMBERS];
    let ends = 2 * n;
    let cells = m * n;
    let numbers = count as usize * n;
    hold_in(
        book,
        behind,
        count,
        &mut bounds[..ends],
        &mut coefs[..cells],
        &mut rhs[..m],
        &mut kinds[..m],
        &mut proposals[..numbers],
        verdicts,
    )
}

// The verdicts of the proposals behind a book that ends at `end`, past check 5, stand at the start of the buffer, two
// numbers each: how many they are.
fn judge_at(input: &[u8], end: usize, verdicts: &mut [u32]) -> Result<usize, Refusal>
    requires { Splits input.now end × (length verdicts.old ≡ 128) }
    ensures { Answers result input.now verdicts.new }
{
    let count = count_behind(input, end);
    let room = 2 * count as usize;
    hold(
        &input[..end],
        &input[end + 4..],
        count,
        &mut verdicts[..room],
    )?;
    Ok(count as usize)
}

// Makes the checks of an input in their order, and holds its proposals against its book: how many verdicts stand at the
// start of the buffer, or refused by the first check that fails.
pub fn judge(input: &[u8], verdicts: &mut [u32]) -> Result<usize, Refusal>
    requires { (length input.now ≤ max_input) × (length verdicts.old ≡ 128) }
    ensures { Answers result input.now verdicts.new }
{
    let end = book_end(input);
    if input.len() < end {
        // No place ends a book, so the whole input fails the check.
        return check_head(input).and(Ok(0));
    }
    let n = trailer_u16(&input[..end], VARIABLES);
    check_proposals(input, end, n)?;
    judge_at(input, end, verdicts)
}

// The input of the program `allocations` (02, C-21) and what is printed for it, defined; where the book ends in an
// input, and what stands behind it.
#![tactic(auto)]

ghost use Rattle.std.specs.Prelude.{not, ◌≡◌, ◌≤◌, length};
ghost use Rattle.model.specs.Checks.{first};
ghost use Rattle.allocation_input.specs.Input.{book_end, count_at, first_end, max_input, no_split};
ghost use Rattle.model.specs.Limits.{max_variables};
ghost use Rattle.model.specs.Refusals.{fault_of};
ghost use Rattle.allocation_input.specs.Input.{proposal_checks, whole_end};

use book::layout::{VARIABLES, check_head, trailer_u16};
use little_endian::read_u32;
use model::refusal::Refusal;

const COUNT: usize = 4;

const MAX_PROPOSALS: u32 = 64;

// The count behind a book that ends at `end`, 0 where its four bytes are not there.
pub fn count_behind(input: &[u8], end: usize) -> u32
    requires { end ≤ length input.now }
    ensures { result ≡ count_at end input.now }
{
    if input.len() - end < COUNT {
        return 0;
    }
    read_u32(input, end)
}

// Checks 22 and 5 of what stands behind a book of n variables that ends at `end`: refused by the first that fails.
pub fn check_proposals(input: &[u8], end: usize, n: usize) -> Result<(), Refusal>
    requires { (length input.now ≤ max_input) × (end ≤ length input.now) × (n ≤ max_variables) }
    ensures { fault_of result ≡ first (proposal_checks n end input.now) }
{
    let count = count_behind(input, end);
    if count < 1 {
        return Err(Refusal::ProposalCount);
    }
    if MAX_PROPOSALS < count {
        return Err(Refusal::ProposalCount);
    }
    if input.len() != end + COUNT + 4 * (count as usize * n) {
        return Err(Refusal::BufferLength);
    }
    Ok(())
}

// Whether a book ends at `end` and what stands behind it are its proposals: checks 1 to 4, 22 and 5.
fn splits_at(input: &[u8], end: usize) -> bool
    requires { (length input.now ≤ max_input) × (end ≤ length input.now) }
    ensures { result ≡ not (no_split input.now end) }
{
    if check_head(&input[..end]).is_err() {
        return false;
    }
    let n = trailer_u16(&input[..end], VARIABLES);
    check_proposals(input, end, n).is_ok()
}

// The first place that splits the input so; past the input where there is none.
fn whole_end(input: &[u8]) -> usize
    requires { length input.now ≤ max_input }
    ensures { result ≡ whole_end input.now }
{
    let places = input.len() + 1;
    for end in 0..places {
        if splits_at(input, end) {
            return end;
        }
    }
    places
}

// The first place up to which the input passes checks 1 to 4 of a book; past the input where there is none.
fn first_end(input: &[u8]) -> usize
    requires { length input.now ≤ max_input }
    ensures { result ≡ first_end input.now }
{
    let places = input.len() + 1;
    for end in 0..places {
        if check_head(&input[..end]).is_ok() {
            return end;
        }
    }
    places
}

// Where the book ends.
pub fn book_end(input: &[u8]) -> usize
    requires { length input.now ≤ max_input }
    ensures { result ≡ book_end input.now }
{
    let end = whole_end(input);
    if end <= input.len() {
        return end;
    }
    first_end(input)
}

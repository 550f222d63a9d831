// The trailer, the last 16 bytes of a book: where the bounds and the rows start, n, m, and the book's length.
ghost use Rattle.std.specs.Prelude.{◌≡◌, ◌<◌, ◌≤◌, length};
ghost use Rattle.model.specs.Checks.{first};
ghost use Rattle.book.specs.Answers.{sizes_answer, trailer_call};
ghost use Rattle.book.specs.Book.{book_length, row_place, trailer_bytes, trailer_of, variables, rows};
ghost use Rattle.little_endian.specs.Bytes.{number_at};
ghost use Rattle.model.specs.Refusals.{fault_of};
ghost use Rattle.model.specs.Limits.{max_rows, max_variables};
ghost use Rattle.book.specs.BookChecks.{given_length_checks, head_checks, layout_checks};

use little_endian::{read_u16, read_u32, write_u16, write_u32};
use model::refusal::Refusal;
use model_checks::check_size;

pub const TRAILER: usize = 16;

// The places of n and m in it.
pub const VARIABLES: usize = 8;

pub const ROWS: usize = 10;

// How many variables and how many rows a model has.
#[derive(Clone, Copy, PartialEq, Eq)]
pub struct Sizes {
    pub n: usize,
    pub m: usize,
}

// n and m as the trailer's bytes say them.
pub fn variables_of(trailer: &[u8]) -> usize
    requires { 16 ≤ length trailer.now }
    ensures { result ≡ variables trailer.now }
{
    read_u16(trailer, VARIABLES) as usize
}

pub fn rows_of(trailer: &[u8]) -> usize
    requires { 16 ≤ length trailer.now }
    ensures { result ≡ rows trailer.now }
{
    read_u16(trailer, ROWS) as usize
}

// The number of two bytes at place `at` of a whole book's trailer.
pub fn trailer_u16(book: &[u8], at: usize) -> usize
    requires { (16 ≤ length book.now) × (at ≤ 14) }
    ensures { result ≡ number_at 2 at (trailer_of book.now) }
{
    read_u16(&book[book.len() - TRAILER..], at) as usize
}

// The place of row i: its right side, and then its coefficients.
pub fn row_place(n: usize, i: usize) -> usize
    requires { (n ≤ max_variables) × (i ≤ max_rows) }
    ensures { result ≡ row_place n i }
{
    8 * n + i * (4 + 4 * n)
}

// The length of a book of n variables and m rows.
pub fn book_length(n: usize, m: usize) -> usize
    requires { (n ≤ max_variables) × (m ≤ max_rows) }
    ensures { result ≡ book_length n m }
{
    row_place(n, m) + TRAILER
}

// Checks 3 and 4 of the trailer's bytes: refused by the first that fails.
fn check_layout(trailer: &[u8]) -> Result<(), Refusal>
    requires { 16 ≤ length trailer.now }
    ensures { fault_of result ≡ first (layout_checks trailer.now) }
{
    let n = variables_of(trailer);
    let m = rows_of(trailer);
    check_size(n, m)?;
    if read_u32(trailer, 0) != 0 {
        return Err(Refusal::BookLayout);
    }
    if read_u32(trailer, 4) as usize != 8 * n {
        return Err(Refusal::BookLayout);
    }
    if read_u32(trailer, 12) as usize != book_length(n, m) {
        return Err(Refusal::BookLayout);
    }
    Ok(())
}

// Check 2: refused where the length that the trailer gives is not the book's.
pub fn check_given_length(trailer: &[u8], len: usize) -> Result<(), Refusal>
    requires { 16 ≤ length trailer.now }
    ensures { fault_of result ≡ first (given_length_checks trailer.now len) }
{
    if read_u32(trailer, 12) as usize != len {
        return Err(Refusal::BookLength);
    }
    Ok(())
}

// Checks 1 to 4 of a book: refused by the first that fails.
#[tactic(auto, using(crate::proofs::HeadLaws::head_order))]
pub fn check_head(book: &[u8]) -> Result<(), Refusal>
    ensures { fault_of result ≡ first (head_checks book.now) }
{
    let len = book.len();
    if len < TRAILER {
        return Err(Refusal::ShortBook);
    }
    let trailer = &book[len - TRAILER..];
    check_given_length(trailer, len)?;
    check_layout(trailer)
}

// n and m of the 16 trailer bytes alone. Refused by 1, more than 16 bytes by 5, then 3 and 4.
pub fn trailer(bytes: &[u8]) -> Result<Sizes, Refusal>
    ensures { sizes_answer result ≡ trailer_call bytes.now }
{
    let is_short = bytes.len() < TRAILER;
    if is_short {
        return Err(Refusal::ShortBook);
    }
    let is_longer = TRAILER < bytes.len();
    if is_longer {
        return Err(Refusal::BufferLength);
    }
    check_layout(bytes)?;
    Ok(Sizes {
        n: variables_of(bytes),
        m: rows_of(bytes),
    })
}

// Writes the trailer of a book of n variables, m rows and len bytes.
pub fn write_trailer(trailer: &mut [u8], n: usize, m: usize, len: usize)
    requires { (length trailer.old ≡ 16) × (n ≤ max_variables) × (m ≤ max_rows) × (len < 4_294_967_296) }
    ensures { trailer.new ≡ trailer_bytes n m len }
{
    write_u32(trailer, 0, 0);
    write_u32(trailer, 4, (8 * n) as u32);
    write_u16(trailer, VARIABLES, n as u16);
    write_u16(trailer, ROWS, m as u16);
    write_u32(trailer, 12, len as u32);
}

// Checks 1 to 4, 19 and 20 of a sparse book in turn; past them the checks over its numbers, one row at a time, and the
// numbers themselves into lent buffers.
#![tactic(auto)]

ghost use Rattle.std.specs.Prelude.{◌≡◌, ◌+◌, ◌*◌, ◌≤◌, pos, length, replicate};
ghost use Rattle.little_endian.specs.Pieces.{joined, list_of};
ghost use Rattle.book.specs.Book.{bounds_of};
ghost use Rattle.model.specs.Checks.{first, number_checks};
ghost use Rattle.model.specs.Refusals.{fault_of};
ghost use Rattle.sparse_layout.specs.SparseBook.{HoldsRows, count_at, dense_at, sparse_coefs_of, sparse_kinds_of};
ghost use Rattle.sparse_layout.specs.SparseBook.{sparse_rhs_of, sparse_rows_of};
ghost use Rattle.sparse_layout.specs.SparseChecks.{all_entry_checks, entry_checks, row_entry_checks};
ghost use Rattle.sparse_layout.specs.SparseChecks.{sparse_layout_checks};

use book::layout::{ROWS, VARIABLES, trailer_u16};
use book_reading::check_bounds;
use little_endian::integers::{are_in_range, read_integers};
use little_endian::{read_i32, read_u16};
use model::refusal::Refusal;
use model::{MAX_COEF, MAX_RHS};
use sparse_checks::entries::{check_entries, row_count};
use sparse_checks::head::check_head;

// Checks 1 to 4, 19 and 20 of a book: refused by the first that fails.
pub fn check_layout(book: &[u8]) -> Result<(), Refusal>
    ensures { fault_of result ≡ first (sparse_layout_checks book.now) }
{
    check_head(book)?;
    let n = trailer_u16(book, VARIABLES);
    let m = trailer_u16(book, ROWS);
    check_entries(n, m, book)
}

// Checks 6, 7, 23, 8, 9 and 16 over the book's numbers: refused by the first that fails. Coefficients that have no entry
// are 0, which is in range.
pub fn check_numbers(n: usize, m: usize, book: &[u8]) -> Result<(), Refusal>
    requires { HoldsRows n m book.now × (first (all_entry_checks n m book.now) ≡ 0) }
    ensures { let bs = book.now in
        fault_of result ≡ first (number_checks n (bounds_of n bs) (sparse_rows_of n m bs)) }
{
    check_bounds(n, book)?;
    let mut coefs = true;
    let mut rhs = true;
    let mut kinds = true;
    let mut p = 8 * n;
    for i in 0..m {
        let count = row_count(book, p) as usize;
        coefs &= are_in_range(book, p + 9, 6, count, -MAX_COEF, MAX_COEF);
        rhs &= are_in_range(book, p, 4, 1, -MAX_RHS, MAX_RHS);
        kinds &= book[p + 4] < 2;
        p += 7 + 6 * count;
    }
    if !coefs {
        return Err(Refusal::Coefficient);
    }
    if !rhs {
        return Err(Refusal::RightSide);
    }
    if !kinds {
        return Err(Refusal::RowKind);
    }
    Ok(())
}

// Puts each of the `count` entries of the row at p into its column of a row of zeros.
fn store_entries(book: &[u8], p: usize, count: usize, row: &mut [i32])
    requires entries { (p + 7 + count * 6 ≤ length book.now)
        × (first (joined count (entry_checks (length row.old) p book.now)) ≡ 0) }
    requires zeros { row.old ≡ replicate (length row.old) (pos 0) }
    ensures { row.new ≡ list_of (length row.old) (dense_at p book.now count) }
{
    for e in 0..count {
        let place = p + 7 + e * 6;
        let column = read_u16(book, place) as usize;
        row[column] = read_i32(book, place + 2);
    }
}

// Reads the coefficients of the row at p.
fn read_row(book: &[u8], p: usize, row: &mut [i32])
    requires { (p + (7 + 6 * count_at p book.now) ≤ length book.now)
        × (first (row_entry_checks (length row.old) book.now p) ≡ 0) }
    ensures { let bs = book.now in
        row.new ≡ list_of (length row.old) (dense_at p bs (count_at p bs)) }
{
    row.fill(0);
    store_entries(book, p, row_count(book, p) as usize, row);
}

pub fn read_coefs(n: usize, m: usize, book: &[u8], coefs: &mut [i32])
    requires { HoldsRows n m book.now × (first (all_entry_checks n m book.now) ≡ 0)
        × (length coefs.old ≡ m * n) }
    ensures { coefs.new ≡ sparse_coefs_of n m book.now }
{
    let mut p = 8 * n;
    for i in 0..m {
        let start = i * n;
        let end = start + n;
        read_row(book, p, &mut coefs[start..end]);
        p += 7 + 6 * (row_count(book, p) as usize);
    }
}

pub fn read_rhs(n: usize, book: &[u8], rhs: &mut [i32])
    requires { HoldsRows n (length rhs.old) book.now }
    ensures { rhs.new ≡ sparse_rhs_of n (length rhs.old) book.now }
{
    let mut p = 8 * n;
    for b in rhs.iter_mut() {
        *b = read_i32(book, p);
        p += 7 + 6 * (row_count(book, p) as usize);
    }
}

pub fn read_kinds(n: usize, book: &[u8], kinds: &mut [u8])
    requires { HoldsRows n (length kinds.old) book.now }
    ensures { kinds.new ≡ sparse_kinds_of n (length kinds.old) book.now }
{
    let mut p = 8 * n;
    for kind in kinds.iter_mut() {
        *kind = book[p + 4];
        p += 7 + 6 * (row_count(book, p) as usize);
    }
}

// Reads the numbers of a book that has passed the checks of its layout into buffers of its model's lengths.
pub fn read_numbers(
    n: usize,
    m: usize,
    book: &[u8],
    bounds: &mut [i32],
    coefs: &mut [i32],
    rhs: &mut [i32],
    kinds: &mut [u8],
)
    requires layout { HoldsRows n m book.now × (first (all_entry_checks n m book.now) ≡ 0) }
    requires lengths { (length bounds.old ≡ 2 * n) × (length coefs.old ≡ m * n)
        × (length rhs.old ≡ m) × (length kinds.old ≡ m) }
    ensures bounds_read { bounds.new ≡ bounds_of n book.now }
    ensures coefs_read { coefs.new ≡ sparse_coefs_of n m book.now }
    ensures rhs_read { rhs.new ≡ sparse_rhs_of n m book.now }
    ensures kinds_read { kinds.new ≡ sparse_kinds_of n m book.now }
{
    read_integers(book, 0, 4, bounds);
    read_coefs(n, m, book, coefs);
    read_rhs(n, book, rhs);
    read_kinds(n, book, kinds);
}

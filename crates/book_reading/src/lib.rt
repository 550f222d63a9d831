// Reading a book: every check over the book's bytes, and only then the numbers into the lent buffers.
#![tactic(auto)]

ghost use Rattle.std.specs.Prelude.{◌≡◌, ℕ, ◌*◌, ◌≤◌, length};
ghost use Rattle.model.specs.Checks.{box_checks, first, in_range, number_checks};
ghost use Rattle.model.specs.Limits.{max_coef, max_variables, min_coef};
ghost use Rattle.model.specs.Model.{model_of};
ghost use Rattle.model.specs.Refusals.{fault_of};
ghost use Rattle.model.specs.Rows.{rows_of};
ghost use Rattle.book.specs.Answers.{bounds_read, coefs_read, kinds_read, read_call, read_fault, rhs_read};
ghost use Rattle.book.specs.Answers.{sizes_answer, sizes_are};
ghost use Rattle.book.specs.Book.{HoldsModel, bounds_of, coefs_of, encode, kinds_of, rhs_of};

use book::Sizes;
use book::layout::{ROWS, VARIABLES, check_head, row_place, trailer_u16};
use little_endian::integers::{are_in_range, read_integers};
use model::refusal::Refusal;
use model::{MAX_COEF, MAX_RHS, MAX_VARIABLES};

// Checks 6, 7 and 23 over the book's bounds.
pub fn check_bounds(n: usize, book: &[u8]) -> Result<(), Refusal>
    requires { (n ≤ max_variables) × (8 * n ≤ length book.now) }
    ensures { fault_of result ≡ first (box_checks n (bounds_of n book.now)) }
{
    let mut bounds = [0i32; 2 * MAX_VARIABLES];
    let len = 2 * n;
    read_integers(book, 0, 4, &mut bounds[..len]);
    model_checks::check_box(n, &bounds[..len])
}

// Check 8: whether every coefficient of the book lies in its range.
fn coefs_in_range(n: usize, m: usize, book: &[u8]) -> bool
    requires { HoldsModel n m book.now }
    ensures { result ≡ in_range min_coef max_coef (coefs_of n m book.now) }
{
    for i in 0..m {
        let row = row_place(n, i);
        if !are_in_range(book, row + 4, 4, n, -MAX_COEF, MAX_COEF) {
            return false;
        }
    }
    true
}

// Checks 6, 7, 23, 8 and 9 over the book's numbers: refused by the first that fails. Its kinds are all 0, so 16 passes.
fn check_numbers(n: usize, m: usize, book: &[u8]) -> Result<(), Refusal>
    requires { HoldsModel n m book.now }
    ensures { let bs = book.now in
        let A = rows_of (coefs_of n m bs) (rhs_of n m bs) (kinds_of m) in
        fault_of result ≡ first (number_checks n (bounds_of n bs) A) }
{
    check_bounds(n, book)?;
    if !coefs_in_range(n, m, book) {
        return Err(Refusal::Coefficient);
    }
    if !are_in_range(book, 8 * n, 4 + 4 * n, m, -MAX_RHS, MAX_RHS) {
        return Err(Refusal::RightSide);
    }
    Ok(())
}

// All checks of a book and of the buffers that it is to be read into, 1 to 9 and 23: refused by the first that fails.
fn check_book(
    book: &[u8],
    bounds: &[i32],
    coefs: &[i32],
    rhs: &[i32],
    kinds: &[u8],
) -> Result<(), Refusal>
    ensures { let A = rows_of coefs.now rhs.now kinds.now in
        fault_of result ≡ read_fault book.now bounds.now A }
{
    check_head(book)?;
    let n = trailer_u16(book, VARIABLES);
    let m = trailer_u16(book, ROWS);
    model_checks::check_lengths(n, m, bounds, coefs, rhs, kinds)?;
    check_numbers(n, m, book)
}

pub fn read_coefs(n: usize, m: usize, book: &[u8], coefs: &mut [i32])
    requires { HoldsModel n m book.now × (length coefs.old ≡ m * n) }
    ensures { coefs.new ≡ coefs_of n m book.now }
{
    for i in 0..m {
        let row = row_place(n, i);
        let start = i * n;
        let end = start + n;
        read_integers(book, row + 4, 4, &mut coefs[start..end]);
    }
}

// Reads a book into lent buffers and answers n and m; the kinds become all 0. Refused by 1 to 9 and 23; then nothing is
// written. Writing what was read gives the same book (`round_trip`).
pub fn read(
    book: &[u8],
    bounds: &mut [i32],
    coefs: &mut [i32],
    rhs: &mut [i32],
    kinds: &mut [u8],
) -> Result<Sizes, Refusal>
    ensures answer { let A = rows_of coefs.old rhs.old kinds.old in
        sizes_answer result ≡ read_call book.now bounds.old A }
    ensures bounds_read { let A = rows_of coefs.old rhs.old kinds.old in
        bounds.new ≡ bounds_read book.now bounds.old A }
    ensures coefs_read { let A = rows_of coefs.old rhs.old kinds.old in
        coefs.new ≡ coefs_read book.now bounds.old A }
    ensures rhs_read { let A = rows_of coefs.old rhs.old kinds.old in
        rhs.new ≡ rhs_read book.now bounds.old A }
    ensures kinds_read { let A = rows_of coefs.old rhs.old kinds.old in
        kinds.new ≡ kinds_read book.now bounds.old A }
    ensures round_trip { let A' = rows_of coefs.new rhs.new kinds.new in
        ((n m : ℕ) → sizes_answer result ≡ sizes_are n m →
        encode (model_of n m bounds.new A') ≡ book.now) }
{
    check_book(book, bounds, coefs, rhs, kinds)?;
    let n = trailer_u16(book, VARIABLES);
    let m = trailer_u16(book, ROWS);
    read_integers(book, 0, 4, bounds);
    read_coefs(n, m, book, coefs);
    read_integers(book, 8 * n, 4 + 4 * n, rhs);
    // Every row of a first-edition book is a ≤ row.
    kinds.fill(0);
    Ok(Sizes { n, m })
}

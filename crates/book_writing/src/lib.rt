// Writing a model as a book: every check over the model and the lent book, and only then the bytes.
#![tactic(auto)]

ghost use Rattle.std.specs.Prelude.{[], ◌≡◌, ◌*◌, eqb, length};
ghost use Rattle.model.specs.Checks.{first, size_checks};
ghost use Rattle.model.specs.Model.{model_of};
ghost use Rattle.model.specs.Refusals.{fault_of};
ghost use Rattle.model.specs.Rows.{rows_of};
ghost use Rattle.book.specs.Answers.{book_written, write_answer, write_call, write_fault, written};
ghost use Rattle.book.specs.Book.{HoldsModel, book_length, decode, row_bytes_at};
ghost use Rattle.book.specs.BookChecks.{book_fault, first_edition_checks, inequalities};
ghost use Rattle.little_endian.specs.Pieces.{joined, overwrite};

use book::layout::{TRAILER, book_length, row_place, write_trailer};
use little_endian::integers::write_integers;
use little_endian::write_i32;
use matrix::coefficients;
use model::refusal::Refusal;
use model_checks::{check_model, check_size};

// Whether a book of n variables and m rows has len bytes. Beyond the limits of n and m nothing is
// asked: check 3 answers there.
fn is_book_length(n: usize, m: usize, len: usize) -> bool
    ensures { first (size_checks n m) ≡ 0 → result ≡ eqb len (book_length n m) }
{
    match check_size(n, m) {
        Ok(()) => len == book_length(n, m),
        Err(_) => false,
    }
}

// Whether no row is an = row.
fn are_inequalities(kinds: &[u8]) -> bool
    ensures { result ≡ inequalities kinds.now }
{
    let mut ok = true;
    for &kind in kinds {
        ok &= kind != 1;
    }
    ok
}

// Check 17: refused where a row is an = row, for which a first-edition book has no byte.
fn check_first_edition(kinds: &[u8]) -> Result<(), Refusal>
    ensures { fault_of result ≡ first (first_edition_checks kinds.now) }
{
    if !are_inequalities(kinds) {
        return Err(Refusal::EqualityRow);
    }
    Ok(())
}

// The checks of a model, with the length of the book that it is to be written to (5), and then 17: refused by the first
// that fails.
fn check_writing(
    n: usize,
    m: usize,
    bounds: &[i32],
    coefs: &[i32],
    rhs: &[i32],
    kinds: &[u8],
    book: &[u8],
) -> Result<(), Refusal>
    ensures { let A = rows_of coefs.now rhs.now kinds.now in
        fault_of result ≡ write_fault (model_of n m bounds.now A) book.now }
{
    let fits = is_book_length(n, m, book.len());
    check_model(n, m, bounds, coefs, rhs, kinds, fits)?;
    check_first_edition(kinds)
}

// The right side and the coefficients of each row; no byte of a book is a kind.
fn write_rows(n: usize, coefs: &[i32], rhs: &[i32], book: &mut [u8])
    requires { HoldsModel n (length rhs.now) book.old × (length coefs.now ≡ length rhs.now * n) }
    ensures { let R = rhs.now in
        let rows = joined (length R) (row_bytes_at n (rows_of coefs.now R [])) in
        book.new ≡ overwrite (8 * n) rows book.old }
{
    for (i, &b) in rhs.iter().enumerate() {
        let row = row_place(n, i);
        write_i32(book, row, b);
        write_integers(book, row + 4, coefficients(n, coefs, i));
    }
}

// Writes a model as a book. Refused by 3, 5 to 9, 23, 16 and 17; then nothing is written.
// Reading what was written is not refused, and gives the same model (`round_trip`).
pub fn write(
    n: usize,
    m: usize,
    bounds: &[i32],
    coefs: &[i32],
    rhs: &[i32],
    kinds: &[u8],
    book: &mut [u8],
) -> Result<(), Refusal>
    ensures answer { let A = rows_of coefs.now rhs.now kinds.now in
        let M = model_of n m bounds.now A in
        write_answer result ≡ write_call M book.old }
    ensures book_written { let A = rows_of coefs.now rhs.now kinds.now in
        let M = model_of n m bounds.now A in
        book.new ≡ book_written M book.old }
    ensures round_trip { let A = rows_of coefs.now rhs.now kinds.now in
        let M = model_of n m bounds.now A in
        let bs = book.new in
        (write_answer result ≡ written → (book_fault bs ≡ 0) × (decode bs ≡ M)) }
{
    check_writing(n, m, bounds, coefs, rhs, kinds, book)?;
    write_integers(book, 0, bounds);
    write_rows(n, coefs, rhs, book);
    let len = book.len();
    let end = len - TRAILER;
    write_trailer(&mut book[end..], n, m, len);
    Ok(())
}

// Writing a model as a sparse book: every check over the model and the lent book, and only then the bytes.
ghost use Rattle.std.specs.Prelude.{[], ◌≡◌, ◌*◌, eqb, length as size};
ghost use Rattle.book.specs.Answers.{write_answer, written};
ghost use Rattle.model.specs.Checks.{first, size_checks};
ghost use Rattle.model.specs.Model.{model_of};
ghost use Rattle.model.specs.Refusals.{fault_of};
ghost use Rattle.model.specs.Rows.{rows_of};
ghost use Rattle.sparse_layout.specs.SparseBook.{decode_sparse, sparse_length};
ghost use Rattle.sparse_layout.specs.SparseChecks.{sparse_fault};
ghost use Rattle.sparse_calls.specs.SparseCalls.{length_answer, sparse_length_call, sparse_write_call, sparse_write_fault};
ghost use Rattle.sparse_calls.specs.SparseCalls.{sparse_written};

use book::layout::{TRAILER, write_trailer};
use buffer_checks::is_product;
use little_endian::integers::write_integers;
use model::refusal::Refusal;
use model_checks::{check_model, check_size};
use sparse_writing::{sparse_length, write_rows};

// Whether the sparse book of n variables, m rows and these coefficients has len bytes. Beyond the limits of n and m, or
// where there are not m · n coefficients, nothing is asked: check 3 or 5 answers there.
fn is_sparse_length(n: usize, m: usize, coefs: &[i32], len: usize) -> bool
    ensures { let C = coefs.now in
        (first (size_checks n m) ≡ 0 → size C ≡ m * n →
        result ≡ eqb len (sparse_length (model_of n m [] (rows_of C [] [])))) }
{
    match check_size(n, m) {
        Ok(()) => is_product(coefs.len(), m, n) && len == sparse_length(n, m, coefs),
        Err(_) => false,
    }
}

// The checks of a model, with the length of the book that it is to be written to (5): refused by the first that
// fails.
fn check_writing(
    n: usize,
    m: usize,
    bounds: &[i32],
    coefs: &[i32],
    rhs: &[i32],
    kinds: &[u8],
    book: &[u8],
) -> Result<(), Refusal>
    ensures { let A = rows_of coefs.now rhs.now kinds.now in
        fault_of result ≡ sparse_write_fault (model_of n m bounds.now A) book.now }
{
    let fits = is_sparse_length(n, m, coefs, book.len());
    check_model(n, m, bounds, coefs, rhs, kinds, fits)
}

// Writes a model as a sparse book. Refused by 3, 5 to 9, 23 and 16; then nothing is written. Reading what was written
// is not refused, and gives the same model (`round_trip`).
pub fn write(
    n: usize,
    m: usize,
    bounds: &[i32],
    coefs: &[i32],
    rhs: &[i32],
    kinds: &[u8],
    book: &mut [u8],
) -> Result<(), Refusal>
    ensures answer { let A = rows_of coefs.now rhs.now kinds.now in
        let M = model_of n m bounds.now A in
        write_answer result ≡ sparse_write_call M book.old }
    ensures book_written { let A = rows_of coefs.now rhs.now kinds.now in
        let M = model_of n m bounds.now A in
        book.new ≡ sparse_written M book.old }
    ensures round_trip { let A = rows_of coefs.now rhs.now kinds.now in
        let M = model_of n m bounds.now A in
        let bs = book.new in
        (write_answer result ≡ written → (sparse_fault bs ≡ 0) × (decode_sparse bs ≡ M)) }
{
    check_writing(n, m, bounds, coefs, rhs, kinds, book)?;
    write_integers(book, 0, bounds);
    write_rows(n, coefs, rhs, kinds, book);
    let len = book.len();
    let end = len - TRAILER;
    write_trailer(&mut book[end..], n, m, len);
    Ok(())
}

// How many bytes the sparse book of a model has. Refused by 3, 5 to 9, 23 and 16.
pub fn length(
    n: usize,
    m: usize,
    bounds: &[i32],
    coefs: &[i32],
    rhs: &[i32],
    kinds: &[u8],
) -> Result<usize, Refusal>
    ensures { let A = rows_of coefs.now rhs.now kinds.now in
        length_answer result ≡ sparse_length_call (model_of n m bounds.now A) }
{
    check_model(n, m, bounds, coefs, rhs, kinds, true)?;
    Ok(sparse_length(n, m, coefs))
}

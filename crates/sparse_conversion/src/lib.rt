// A book of one edition turned into one of the other (02, C-18): the layout's checks of the book that is read, then its
// model, which is checked by the call that writes it. The model stands in local buffers of the largest model's size.
// What is open here requires nothing; converting there and back gives the same bytes.
#![tactic(auto)]

ghost use Rattle.std.specs.Prelude.{◌≡◌, ◌*◌, length};
ghost use Rattle.book.specs.Answers.{book_written, write_answer, write_call, written};
ghost use Rattle.book.specs.Book.{HoldsModel, bounds_of, coefs_of, kinds_of, model_in, rhs_of};
ghost use Rattle.book.specs.BookChecks.{book_fault};
ghost use Rattle.model.specs.Checks.{first};
ghost use Rattle.sparse_layout.specs.SparseBook.{HoldsRows, sparse_model_in};
ghost use Rattle.sparse_layout.specs.SparseChecks.{all_entry_checks, sparse_fault};
ghost use Rattle.sparse_layout.specs.SparseTrips.{to_first, to_sparse};
ghost use Rattle.sparse_calls.specs.SparseCalls.{length_answer, sparse_length_call, sparse_write_call, sparse_written};
ghost use Rattle.sparse_calls.specs.SparseCalls.{to_first_call, to_first_written, to_sparse_call, to_sparse_length_call};
ghost use Rattle.sparse_calls.specs.SparseCalls.{to_sparse_written};

use book::layout::{ROWS, VARIABLES, check_head, trailer_u16};
use little_endian::integers::read_integers;
use model::refusal::Refusal;
use model::{MAX_BOX, MAX_MATRIX, MAX_ROWS};
use sparse_reading::{check_layout, read_numbers};

// Reads the numbers of a first-edition book with a head into buffers of its model's lengths.
fn read_first(
    n: usize,
    m: usize,
    book: &[u8],
    bounds: &mut [i32],
    coefs: &mut [i32],
    rhs: &mut [i32],
)
    requires layout { HoldsModel n m book.now }
    requires lengths { (length bounds.old ≡ 2 * n) × (length coefs.old ≡ m * n) × (length rhs.old ≡ m) }
    ensures bounds_read { bounds.new ≡ bounds_of n book.now }
    ensures coefs_read { coefs.new ≡ coefs_of n m book.now }
    ensures rhs_read { rhs.new ≡ rhs_of n m book.now }
{
    read_integers(book, 0, 4, bounds);
    book_reading::read_coefs(n, m, book, coefs);
    read_integers(book, 8 * n, 4 + 4 * n, rhs);
}

// The length of the sparse edition, by way of buffers of the model's lengths; the kinds are all 0.
fn measure_first(
    n: usize,
    m: usize,
    from: &[u8],
    bounds: &mut [i32],
    coefs: &mut [i32],
    rhs: &mut [i32],
    kinds: &[u8],
) -> Result<usize, Refusal>
    requires layout { HoldsModel n m from.now }
    requires lengths { (length bounds.old ≡ 2 * n) × (length coefs.old ≡ m * n) × (length rhs.old ≡ m) }
    requires inequalities { kinds.now ≡ kinds_of m }
    ensures { length_answer result ≡ sparse_length_call (model_in n m from.now) }
{
    read_first(n, m, from, bounds, coefs, rhs);
    sparse::writing::length(n, m, bounds, coefs, rhs, kinds)
}

// The sparse edition, by way of the same.
fn convert_first(
    n: usize,
    m: usize,
    from: &[u8],
    bounds: &mut [i32],
    coefs: &mut [i32],
    rhs: &mut [i32],
    kinds: &[u8],
    to: &mut [u8],
) -> Result<(), Refusal>
    requires layout { HoldsModel n m from.now }
    requires lengths { (length bounds.old ≡ 2 * n) × (length coefs.old ≡ m * n) × (length rhs.old ≡ m) }
    requires inequalities { kinds.now ≡ kinds_of m }
    ensures answer { write_answer result ≡ sparse_write_call (model_in n m from.now) to.old }
    ensures book_written { to.new ≡ sparse_written (model_in n m from.now) to.old }
{
    read_first(n, m, from, bounds, coefs, rhs);
    sparse::writing::write(n, m, bounds, coefs, rhs, kinds, to)
}

// The first edition of a sparse book, by way of buffers of the model's lengths.
fn convert_sparse(
    n: usize,
    m: usize,
    from: &[u8],
    bounds: &mut [i32],
    coefs: &mut [i32],
    rhs: &mut [i32],
    kinds: &mut [u8],
    to: &mut [u8],
) -> Result<(), Refusal>
    requires layout { HoldsRows n m from.now × (first (all_entry_checks n m from.now) ≡ 0) }
    requires lengths { (length bounds.old ≡ 2 * n) × (length coefs.old ≡ m * n)
        × (length rhs.old ≡ m) × (length kinds.old ≡ m) }
    ensures answer { write_answer result ≡ write_call (sparse_model_in n m from.now) to.old }
    ensures book_written { to.new ≡ book_written (sparse_model_in n m from.now) to.old }
{
    read_numbers(n, m, from, bounds, coefs, rhs, kinds);
    book_writing::write(n, m, bounds, coefs, rhs, kinds, to)
}

// How many bytes the sparse edition of a first-edition book has. Refused as reading the book is, by 1 to 4, 6 to 9 and
// 23.
pub fn to_sparse_length(from: &[u8]) -> Result<usize, Refusal>
    ensures { length_answer result ≡ to_sparse_length_call from.now }
{
    check_head(from)?;
    let n = trailer_u16(from, VARIABLES);
    let m = trailer_u16(from, ROWS);
    let mut bounds = [0i32; MAX_BOX];
    let mut coefs = [0i32; MAX_MATRIX];
    let mut rhs = [0i32; MAX_ROWS];
    let kinds = [0u8; MAX_ROWS];
    let width = 2 * n;
    let cells = m * n;
    measure_first(
        n,
        m,
        from,
        &mut bounds[..width],
        &mut coefs[..cells],
        &mut rhs[..m],
        &kinds[..m],
    )
}

// A first-edition book as a sparse one. Refused as reading the book is, with 5 for the length of the book to be
// written; then nothing is written. Converting back gives the same bytes (`round_trip`).
pub fn to_sparse(from: &[u8], to: &mut [u8]) -> Result<(), Refusal>
    ensures answer { write_answer result ≡ to_sparse_call from.now to.old }
    ensures book_written { to.new ≡ to_sparse_written from.now to.old }
    ensures round_trip { let cs = to.new in
        (write_answer result ≡ written → (sparse_fault cs ≡ 0) × (to_first cs ≡ from.now)) }
{
    check_head(from)?;
    let n = trailer_u16(from, VARIABLES);
    let m = trailer_u16(from, ROWS);
    let mut bounds = [0i32; MAX_BOX];
    let mut coefs = [0i32; MAX_MATRIX];
    let mut rhs = [0i32; MAX_ROWS];
    let kinds = [0u8; MAX_ROWS];
    let width = 2 * n;
    let cells = m * n;
    convert_first(
        n,
        m,
        from,
        &mut bounds[..width],
        &mut coefs[..cells],
        &mut rhs[..m],
        &kinds[..m],
        to,
    )
}

// A sparse book as a first-edition one. Refused as reading the book is, with 5 for the length of the book to be
// written, and then an = row by 17; then nothing is written. Converting back gives the same bytes (`round_trip`).
pub fn to_first(from: &[u8], to: &mut [u8]) -> Result<(), Refusal>
    ensures answer { write_answer result ≡ to_first_call from.now to.old }
    ensures book_written { to.new ≡ to_first_written from.now to.old }
    ensures round_trip { let cs = to.new in
        (write_answer result ≡ written → (book_fault cs ≡ 0) × (to_sparse cs ≡ from.now)) }
{
    check_layout(from)?;
    let n = trailer_u16(from, VARIABLES);
    let m = trailer_u16(from, ROWS);
    let mut bounds = [0i32; MAX_BOX];
    let mut coefs = [0i32; MAX_MATRIX];
    let mut rhs = [0i32; MAX_ROWS];
    let mut kinds = [0u8; MAX_ROWS];
    let width = 2 * n;
    let cells = m * n;
    convert_sparse(
        n,
        m,
        from,
        &mut bounds[..width],
        &mut coefs[..cells],
        &mut rhs[..m],
        &mut kinds[..m],
        to,
    )
}

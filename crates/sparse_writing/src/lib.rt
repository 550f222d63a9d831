// The bytes of sparse rows: a row's right side, kind and count, and an entry for each coefficient that is not 0.
#![tactic(auto)]

ghost use Rattle.std.specs.Prelude.{[], ◌≡◌, ◌+◌, ◌*◌, ◌<◌, ◌≤◌, length};
ghost use Rattle.model.specs.Limits.{max_rows, max_variables};
ghost use Rattle.little_endian.specs.Bytes.{pair_count};
ghost use Rattle.little_endian.specs.Pieces.{joined, overwrite};
ghost use Rattle.model.specs.Box.{at as nth};
ghost use Rattle.model.specs.Model.{model_of};
ghost use Rattle.model.specs.Rows.{row_with, rows_of};
ghost use Rattle.sparse_layout.specs.SparseBook.{entry_bytes, entry_of, nonzeros as how_many, rows_length};
ghost use Rattle.sparse_layout.specs.SparseBook.{sparse_length, sparse_row_bytes, sparse_row_bytes_at};

use little_endian::{write_i32, write_u16};
use matrix::coefficients;

// How many numbers of xs are not 0.
pub fn nonzeros(xs: &[i32]) -> usize
    ensures { result ≡ how_many (length xs.now) (nth xs.now) }
{
    let mut count = 0;
    for &x in xs {
        count += (x != 0) as usize;
    }
    count
}

// The length of the sparse book of n variables, m rows and these coefficients; the other numbers have no part in it.
pub fn sparse_length(n: usize, m: usize, coefs: &[i32]) -> usize
    requires { (n ≤ max_variables) × (m ≤ max_rows) × (length coefs.now ≡ m * n) }
    ensures { result ≡ sparse_length (model_of n m [] (rows_of coefs.now [] [])) }
{
    8 * n + (7 * m + 6 * nonzeros(coefs)) + 16
}

// Writes the entry of a column at `place`, if its coefficient is not 0, and answers where it ends.
fn write_entry(book: &mut [u8], place: usize, column: usize, x: i32) -> usize
    requires { (place + length (entry_of column x) ≤ length book.old) × (column < pair_count) }
    ensures end { result ≡ place + length (entry_of column x) }
    ensures written { book.new ≡ overwrite place (entry_of column x) book.old }
{
    if x == 0 {
        return place;
    }
    write_u16(book, place, column as u16);
    write_i32(book, place + 2, x);
    place + 6
}

// Writes an entry for each coefficient of a row that is not 0, one after the other from `place` on.
fn write_entries(book: &mut [u8], place: usize, row: &[i32])
    requires { (place + how_many (length row.now) (nth row.now) * 6 ≤ length book.old)
        × (length row.now ≤ max_variables) }
    ensures { let R = row.now in
        book.new ≡ overwrite place (joined (length R) (entry_bytes (nth R))) book.old }
{
    let mut p = place;
    for (j, &x) in row.iter().enumerate() {
        p = write_entry(book, p, j, x);
    }
}

// Writes a row from `place` on, and answers where it ends.
fn write_row(book: &mut [u8], place: usize, row: &[i32], rhs: i32, kind: u8) -> usize
    requires { (place + (7 + 6 * how_many (length row.now) (nth row.now)) ≤ length book.old)
        × (length row.now ≤ max_variables) }
    ensures end { result ≡ place + (7 + 6 * how_many (length row.now) (nth row.now)) }
    ensures written { let R = row.now in
        book.new ≡ overwrite place (sparse_row_bytes (length R) (row_with R rhs kind)) book.old }
{
    let count = nonzeros(row);
    write_i32(book, place, rhs);
    book[place + 4] = kind;
    write_u16(book, place + 5, count as u16);
    write_entries(book, place + 7, row);
    place + (7 + 6 * count)
}

// Writes the rows one after the other from 8n on.
pub fn write_rows(n: usize, coefs: &[i32], rhs: &[i32], kinds: &[u8], book: &mut [u8])
    requires { (n ≤ max_variables) × (length kinds.now ≡ length rhs.now)
        × (length coefs.now ≡ length rhs.now * n)
        × (8 * n + rows_length n (rows_of coefs.now rhs.now kinds.now) (length rhs.now) ≤ length book.old) }
    ensures { let A = rows_of coefs.now rhs.now kinds.now in
        let rows = joined (length A.rhs) (sparse_row_bytes_at n A) in
        book.new ≡ overwrite (8 * n) rows book.old }
{
    let mut p = 8 * n;
    for (i, &b) in rhs.iter().enumerate() {
        p = write_row(book, p, coefficients(n, coefs, i), b, kinds[i]);
    }
}

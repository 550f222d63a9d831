// A model as `reduce` prints it: its rows, and the recorded implications.
use crate::parts::columns;
use crate::print::{item, line, list, number, numbers, text};
use crate::seen::Model;
use std::io::Stdout;

// How the line of row r starts: r, row, b; of an = row, = before b.
fn row_head(out: Stdout, rhs: &[i32], kinds: &[u8], r: usize) {
    item(out, b"  r", r);
    if kinds.get(r) == Some(&1) {
        text(out, b" =");
    }
    if let Some(b) = rhs.get(r) {
        number(out, *b);
    }
}

// Each row: r, row, b, coefficients. A row that is cut off has no end.
pub fn rows(out: Stdout, n: usize, coefs: &[i32], rhs: &[i32], kinds: &[u8]) {
    for (r, row) in coefs.chunks(columns(n)).enumerate() {
        row_head(out, rhs, kinds, r);
        numbers(out, row);
        if row.len() == n {
            line(out);
        }
    }
}

// Literal p implies literal q: i, k, v, j, w.
fn implication(out: Stdout, p: usize, q: usize) {
    item(out, b"  i", p / 2);
    number(out, p % 2);
    number(out, q / 2);
    number(out, q % 2);
    line(out);
}

// What literal p implies.
fn implied(out: Stdout, p: usize, row: &[u8]) {
    for (q, x) in row.iter().enumerate() {
        if *x != 0 {
            implication(out, p, q);
        }
    }
}

// Each recorded implication.
pub fn implications(out: Stdout, literals: usize, table: &[u8]) {
    for (p, row) in table.chunks(columns(literals)).enumerate() {
        implied(out, p, row);
    }
}

// How an example starts: its name with the bounds, then its rows.
pub fn head(out: Stdout, name: &[u8], model: Model<'_>) {
    list(out, name, model.bounds);
    rows(out, model.n, model.coefs, model.rhs, model.kinds);
}

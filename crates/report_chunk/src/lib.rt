// A report line by line (`line_at`), and in chunks that fit a buffer: `fill` writes as many lines as have room and says
// where to go on. A program prints a report by `fill`, writing out, and `fill` again from there. No kind is printed
// (`report-kindless`), so none is lent: the states here have rows without kinds.
#![tactic(auto)]

ghost use Rattle.std.specs.Prelude.{[], ◌≡◌, ◌+◌, ◌*◌, ◌<◌, ◌≤◌, length};
ghost use Rattle.model.specs.Limits.{max_rows, max_variables};
ghost use Rattle.model.specs.Rows.{row_at, rows_of};
ghost use Rattle.model.specs.State.{state_of};
ghost use Rattle.report.specs.Report.{Printable, implication_at, line_at, line_count, max_line, max_short_line, row_text};
ghost use Rattle.text.specs.Text.{Wrote, chunk};

use matrix::coefficients;
use report::{is_zero_row, next_line};
use report_line::{write_implication, write_reduced, write_row, write_variable};

// No line of a report is longer: 2 + 12 · (2 + 128) bytes.
pub const MAX_LINE: usize = 1_562;

// The lines up to `next` are written, the last of them up to byte `end` of the buffer.
#[derive(Clone, Copy)]
pub struct Chunk {
    pub next: usize,
    pub end: usize,
}

// The line of row r, or nothing where the row is all zero.
fn write_row_at(n: usize, coefs: &[i32], rhs: &[i32], r: usize, buf: &mut [u8], at: usize) -> usize
    requires n_le_max_variables { n ≤ max_variables }
    requires r_lt_max_rows { r < max_rows }
    requires r_in_bounds { r < length rhs.now }
    requires n_in_bounds { r * n + n ≤ length coefs.now }
    requires max_line_in_bounds { at + max_line ≤ length buf.old }
    ensures { let row = row_at n (rows_of coefs.now rhs.now []) r in
        Wrote buf.old at (row_text r row) result buf.new }
{
    let row = coefficients(n, coefs, r);
    let b = rhs[r];
    if is_zero_row(b, row) {
        return at;
    }
    write_row(r as u32, b, row, buf, at)
}

// The line of byte i of the table, or nothing where it is not 1.
fn write_implication_at(n: usize, table: &[u8], i: usize, buf: &mut [u8], at: usize) -> usize
    requires n_le_max_variables { n ≤ max_variables }
    requires table_len { length table.now ≡ 4 * (n * n) }
    requires i_in_bounds { i < length table.now }
    requires max_short_line_in_bounds { at + max_short_line ≤ length buf.old }
    ensures { Wrote buf.old at (implication_at n table.now i) result buf.new }
{
    if table[i] != 1 {
        return at;
    }
    let p = (i / (2 * n)) as u32;
    let q = (i % (2 * n)) as u32;
    write_implication(p / 2, p % 2, q / 2, q % 2, buf, at)
}

// Line i of the report.
#[tactic(auto, unfolding(model::specs::State::state_of))]
fn write_line(
    n: usize,
    m: usize,
    rounds: u64,
    bounds: &[i32],
    coefs: &[i32],
    rhs: &[i32],
    table: &[u8],
    i: usize,
    buf: &mut [u8],
    at: usize,
) -> usize
    requires fact { let s = state_of n m bounds.now (rows_of coefs.now rhs.now []) table.now in
        Printable s }
    requires i_bound { i < line_count n m }
    requires max_line_in_bounds { at + max_line ≤ length buf.old }
    ensures { let A = rows_of coefs.now rhs.now [] in
        let s = state_of n m bounds.now A table.now in
        Wrote buf.old at (line_at rounds s i) result buf.new }
{
    if i == 0 {
        return write_reduced(n as u32, m as u32, rounds, buf, at);
    }
    let j = i - 1;
    if j < n {
        return write_variable(j as u32, bounds[2 * j], bounds[2 * j + 1], buf, at);
    }
    let r = j - n;
    if r < m {
        return write_row_at(n, coefs, rhs, r, buf, at);
    }
    write_implication_at(n, table, r - m, buf, at)
}

// How many lines a report has, those without text counted.
pub fn line_count(n: usize, m: usize) -> usize
    requires n_le_max_variables { n ≤ max_variables }
    requires m_le_max_rows { m ≤ max_rows }
    ensures { result ≡ line_count n m }
{
    1 + (n + (m + 4 * (n * n)))
}

// Writes the report's lines from `from` on, as many as have room, at the start of the buffer: at
// least one where one is left.
#[tactic(auto, unfolding(model::specs::State::state_of))]
pub fn fill(
    n: usize,
    m: usize,
    rounds: u64,
    bounds: &[i32],
    coefs: &[i32],
    rhs: &[i32],
    table: &[u8],
    from: usize,
    buf: &mut [u8],
) -> Chunk
    requires fact { let s = state_of n m bounds.now (rows_of coefs.now rhs.now []) table.now in
        Printable s }
    requires from_bound { from ≤ line_count n m }
    requires max_line_in_bounds { max_line ≤ length buf.old }
    ensures text { let A = rows_of coefs.now rhs.now [] in
        let s = state_of n m bounds.now A table.now in
        Wrote buf.old 0 (chunk (line_at rounds s) from result.next) result.end buf.new }
    ensures within { (from ≤ result.next) × (result.next ≤ line_count n m) }
    ensures progress { from < line_count n m → from < result.next }
{
    let count = line_count(n, m);
    let mut next = from;
    let mut end = 0;
    // A turn goes on by as many lines as `next_line` passes over, so it is no count.
    while next < count {
        if buf.len() - end < MAX_LINE {
            return Chunk { next, end };
        }
        end = write_line(n, m, rounds, bounds, coefs, rhs, table, next, buf, end);
        next = next_line(1 + (n + m), table, next + 1);
    }
    Chunk { next, end }
}

// The lines of a report, and `refused` and `none`, which stand alone: each is written into a buffer at a position, and
// the position after it is answered.
#![tactic(auto)]

ghost use Rattle.std.specs.Prelude.{◌+◌, ◌≤◌, length};
ghost use Rattle.report.specs.Report.{refused_line, none_line, reduced_line, variable_line, row_line, implication_line};
ghost use Rattle.report.specs.Report.{max_row_line, max_short_line};
ghost use Rattle.text.specs.Text.{Wrote};

use text::number::{
    write_byte, write_integer, write_integers, write_long, write_natural, write_text,
};

// refused N
pub fn write_refused(number: u32, buf: &mut [u8], at: usize) -> usize
    requires { at + max_short_line ≤ length buf.old }
    ensures text { Wrote buf.old at (refused_line number) result buf.new }
    ensures room { result ≤ at + max_short_line }
{
    let word = write_text(b"refused", buf, at);
    let end = write_natural(number, buf, word);
    write_byte(b'\n', buf, end)
}

// none
pub fn write_none(buf: &mut [u8], at: usize) -> usize
    requires { at + max_short_line ≤ length buf.old }
    ensures text { Wrote buf.old at none_line result buf.new }
    ensures room { result ≤ at + max_short_line }
{
    let end = write_text(b"none", buf, at);
    write_byte(b'\n', buf, end)
}

// reduced n m rounds
pub fn write_reduced(n: u32, m: u32, rounds: u64, buf: &mut [u8], at: usize) -> usize
    requires { at + max_short_line ≤ length buf.old }
    ensures text { Wrote buf.old at (reduced_line n m rounds) result buf.new }
    ensures room { result ≤ at + max_short_line }
{
    let word = write_text(b"reduced", buf, at);
    let variables = write_natural(n, buf, word);
    let rows = write_natural(m, buf, variables);
    let end = write_long(rounds, buf, rows);
    write_byte(b'\n', buf, end)
}

// v, variable, l, u
pub fn write_variable(j: u32, l: i32, u: i32, buf: &mut [u8], at: usize) -> usize
    requires { at + max_short_line ≤ length buf.old }
    ensures text { Wrote buf.old at (variable_line j l u) result buf.new }
    ensures room { result ≤ at + max_short_line }
{
    let letter = write_byte(b'v', buf, at);
    let variable = write_natural(j, buf, letter);
    let lower = write_integer(l, buf, variable);
    let end = write_integer(u, buf, lower);
    write_byte(b'\n', buf, end)
}

// r, row, b, coefficients
pub fn write_row(r: u32, b: i32, coefs: &[i32], buf: &mut [u8], at: usize) -> usize
    requires { at + max_row_line (length coefs.now) ≤ length buf.old }
    ensures text { Wrote buf.old at (row_line r b coefs.now) result buf.new }
    ensures room { result ≤ at + max_row_line (length coefs.now) }
{
    let letter = write_byte(b'r', buf, at);
    let row = write_natural(r, buf, letter);
    let rhs = write_integer(b, buf, row);
    let end = write_integers(coefs, buf, rhs);
    write_byte(b'\n', buf, end)
}

// i, k, v, j, w
pub fn write_implication(k: u32, v: u32, j: u32, w: u32, buf: &mut [u8], at: usize) -> usize
    requires { at + max_short_line ≤ length buf.old }
    ensures text { Wrote buf.old at (implication_line k v j w) result buf.new }
    ensures room { result ≤ at + max_short_line }
{
    let letter = write_byte(b'i', buf, at);
    let first = write_natural(k, buf, letter);
    let value = write_natural(v, buf, first);
    let second = write_natural(j, buf, value);
    let end = write_natural(w, buf, second);
    write_byte(b'\n', buf, end)
}

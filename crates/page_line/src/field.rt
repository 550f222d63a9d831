// Fields of a line: each writes its columns at a position and answers the position after them.
ghost use Rattle.std.specs.Prelude.{cond, ◌≡◌, ◌%◌, ◌+◌, ◌≤◌, ◌<◌, eqb, length};
ghost use Rattle.model.specs.Limits.{max_literals};
ghost use Rattle.text.specs.Decimal.{signed};
ghost use Rattle.text.specs.Text.{Wrote};
ghost use Rattle.pages.specs.Page.{left, literal_text, right, spaces};

use text::number::{write_byte, write_integer, write_text};

// A space and a number of 32 bits.
const NUMBER: usize = 12;

// A literal's columns.
const LITERAL: usize = 6;

pub fn write_spaces(count: usize, buf: &mut [u8], at: usize) -> usize
    requires { at + count ≤ length buf.old }
    ensures { Wrote buf.old at (spaces count) result buf.new }
{
    let end = at + count;
    buf[at..end].fill(b' ');
    end
}

// z, right-aligned in so many columns. It leaves at least one of them empty: the number is made with the space before
// it, and copied behind the other spaces.
pub fn write_right(z: i32, columns: usize, buf: &mut [u8], at: usize) -> usize
    requires z_len_bound { length (signed z) < columns }
    requires columns_in_bounds { at + columns ≤ length buf.old }
    ensures { Wrote buf.old at (right columns (signed z)) result buf.new }
{
    let mut number = [0u8; NUMBER];
    let end = write_integer(z, &mut number, 0);
    let start = write_spaces(columns - end, buf, at);
    write_text(&number[..end], buf, start)
}

// + for "is 1", - for "is 0".
fn sign(q: usize) -> u8
    ensures { result ≡ cond (eqb (q % 2) 1) 43 45 }
{
    if q % 2 == 1 {
        return b'+';
    }
    b'-'
}

// Literal q: its sign, the number of its variable, and spaces.
pub fn write_literal(q: usize, buf: &mut [u8], at: usize) -> usize
    requires q_lt_max_literals { q < max_literals }
    requires at_in_bounds { at + 6 ≤ length buf.old }
    ensures { Wrote buf.old at (left 6 (literal_text q)) result buf.new }
{
    let mut number = [0u8; NUMBER];
    let end = write_integer((q / 2) as i32, &mut number, 0);
    let digits = write_byte(sign(q), buf, at);
    let after = write_text(&number[1..end], buf, digits);
    write_spaces(LITERAL - end, buf, after)
}

// The lines of the pages. Content lines count from 0, over all pages; before the first of each page stands its number.
ghost use Rattle.std.specs.Prelude.{◌≡◌, ◌++◌, ◌+◌, ◌≤◌, ◌<◌, ℤ, drop, get_or, length};
ghost use Rattle.integer.specs.Range.{Within};
ghost use Rattle.model.specs.Limits.{bound_size, max_literals, max_variables};
ghost use Rattle.text.specs.Text.{Wrote};
ghost use Rattle.pages.specs.Page.{empty_line, first_line, further_line, literals, newline, slots};
ghost use Rattle.pages.specs.Writing.{fields, heading, ones_from, start};

use crate::field::{write_literal, write_right, write_spaces};
use text::number::write_byte;

// The lines of a page that its number leaves.
pub const CONTENT: usize = 59;

// The bytes of a line.
const LINE: usize = 81;

// Goes to where content line `line` begins: writes the page's number where a page begins with it.
fn begin_line(line: usize, buf: &mut [u8]) -> usize
    requires line_bound { line < 4130 }
    requires line_in_bounds { start (line + 1) ≤ length buf.old }
    ensures { Wrote buf.old (start line) (heading line) result buf.new }
{
    let at = LINE * (line + (line + (CONTENT - 1)) / CONTENT);
    if line % CONTENT != 0 {
        return at;
    }
    let number = write_spaces(74, buf, at);
    let end = write_right((line / CONTENT + 1) as i32, 6, buf, number);
    write_byte(b'\n', buf, end)
}

// Columns 1 to 23: the variable, l and u.
fn write_fields(k: usize, l: i32, u: i32, buf: &mut [u8], at: usize) -> usize
    requires k_lt_max_variables { (k < max_variables) × Within bound_size l × Within bound_size u }
    requires at_in_bounds { at + 23 ≤ length buf.old }
    ensures { Wrote buf.old at (fields k l u) result buf.new }
{
    let variable = write_right(k as i32, 6, buf, at);
    let lower = write_right(l, 8, buf, variable);
    let upper = write_right(u, 8, buf, lower);
    write_byte(b' ', buf, upper)
}

// The first byte 1 from byte q on, or the end.
fn next_one(part: &[u8], q: usize) -> usize
    requires { q ≤ length part.now }
    ensures within { result ≤ length part.now }
    ensures same { ones_from part.now result ≡ ones_from part.now q }
    ensures one { result < length part.now → get_or part.now result 0 ≡ 1 }
{
    for i in q..part.len() {
        if part[i] == 1 {
            return i;
        }
    }
    part.len()
}

// The first literal from byte q of the variable's part of the table on, or six spaces where there is none. The answer
// is where the next would be looked for.
fn write_slot(part: &[u8], q: usize, buf: &mut [u8], at: usize) -> usize
    requires part_len_bound { (length part.now ≤ max_literals) × (q ≤ length part.now) }
    requires at_in_bounds { at + 6 ≤ length buf.old }
    ensures text { Wrote buf.old at (slots 1 (ones_from part.now q)) (at + 6) buf.new }
    ensures within { result ≤ length part.now }
    ensures left { ones_from part.now result ≡ drop 1 (ones_from part.now q) }
{
    let next = next_one(part, q);
    if next == part.len() {
        write_spaces(6, buf, at);
        return next;
    }
    write_literal(next, buf, at);
    next + 1
}

// Eight of them.
fn write_slots(part: &[u8], q: usize, buf: &mut [u8], at: usize) -> usize
    requires part_len_bound { (length part.now ≤ max_literals) × (q ≤ length part.now) }
    requires at_in_bounds { at + 48 ≤ length buf.old }
    ensures text { Wrote buf.old at (slots 8 (ones_from part.now q)) (at + 48) buf.new }
    ensures within { result ≤ length part.now }
    ensures left { ones_from part.now result ≡ drop 8 (ones_from part.now q) }
{
    let mut next = q;
    for j in 0..8 {
        next = write_slot(part, next, buf, at + 6 * j);
    }
    next
}

// Columns 24 to 80, and the line feed.
fn write_literals(part: &[u8], q: usize, buf: &mut [u8], at: usize) -> usize
    requires part_len_bound { (length part.now ≤ max_literals) × (q ≤ length part.now) }
    requires at_in_bounds { at + 58 ≤ length buf.old }
    ensures text { let text = literals (ones_from part.now q) ++ newline in
        Wrote buf.old at text (at + 58) buf.new }
    ensures within { result ≤ length part.now }
    ensures left { ones_from part.now result ≡ drop 8 (ones_from part.now q) }
{
    let next = write_slots(part, q, buf, at);
    let end = write_spaces(9, buf, at + 48);
    write_byte(b'\n', buf, end);
    next
}

// Content line `line`, the first of variable k. The answer is where its next literal would be looked for.
pub fn write_first(k: usize, l: i32, u: i32, part: &[u8], line: usize, buf: &mut [u8]) -> usize
    requires k_lt_max_variables { (k < max_variables) × Within bound_size l × Within bound_size u }
    requires part_len_bound { length part.now ≤ max_literals }
    requires line_bound { (line < 4130) × (start (line + 1) ≤ length buf.old) }
    ensures text { let text = heading line ++ (first_line k l u (ones_from part.now 0) ++ newline) in
        Wrote buf.old (start line) text (start (line + 1)) buf.new }
    ensures within { result ≤ length part.now }
    ensures left { ones_from part.now result ≡ drop 8 (ones_from part.now 0) }
{
    let at = begin_line(line, buf);
    let literals = write_fields(k, l, u, buf, at);
    write_literals(part, 0, buf, literals)
}

// Content line `line`, a further one of a variable, with its literals from byte q on.
pub fn write_further(part: &[u8], q: usize, line: usize, buf: &mut [u8]) -> usize
    requires part_len_bound { (length part.now ≤ max_literals) × (q ≤ length part.now) }
    requires line_bound { (line < 4130) × (start (line + 1) ≤ length buf.old) }
    ensures text { let text = heading line ++ (further_line (ones_from part.now q) ++ newline) in
        Wrote buf.old (start line) text (start (line + 1)) buf.new }
    ensures within { result ≤ length part.now }
    ensures left { ones_from part.now result ≡ drop 8 (ones_from part.now q) }
{
    let at = begin_line(line, buf);
    let literals = write_spaces(23, buf, at);
    write_literals(part, q, buf, literals)
}

// Content line `line`, empty.
pub fn write_empty(line: usize, buf: &mut [u8])
    requires { (line < 4130) × (start (line + 1) ≤ length buf.old) }
    ensures { let text = heading line ++ (empty_line ++ newline) in
        Wrote buf.old (start line) text (start (line + 1)) buf.new }
{
    let at = begin_line(line, buf);
    let end = write_spaces(80, buf, at);
    write_byte(b'\n', buf, end);
}

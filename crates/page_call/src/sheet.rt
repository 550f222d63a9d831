// All lines: those of each variable, upwards, and the empty ones that fill the last page.
ghost use Rattle.std.specs.Prelude.{◌≡◌, ◌+◌, ◌-◌, ◌*◌, ◌≤◌, ◌<◌, length, replicate};
ghost use Rattle.integer.specs.Range.{Within};
ghost use Rattle.model.specs.Limits.{bound_size, max_literals, max_variables};
ghost use Rattle.text.specs.Text.{Wrote};
ghost use Rattle.pages.specs.Page.{Paper, empty_line, further_count, page_count, page_size, variable_lines};
ghost use Rattle.pages.specs.Page.{pages as pages_of};
ghost use Rattle.pages.specs.Writing.{filled, ones_from, sheet, start};

use crate::count::further_lines;
use page_line::{CONTENT, write_empty, write_first, write_further};

// The lines of variable k, from content line `line` on. The answer is the line after them.
fn write_variable(k: usize, l: i32, u: i32, part: &[u8], line: usize, buf: &mut [u8]) -> usize
    requires k_lt_max_variables { (k < max_variables) × Within bound_size l × Within bound_size u }
    requires part_len_bound { length part.now ≤ max_literals }
    requires part_bound { line + 1 + further_count (length (ones_from part.now 0)) ≤ 4130 }
    requires part_in_bounds { start (line + 1 + further_count (length (ones_from part.now 0))) ≤ length buf.old }
    ensures text { let text = sheet line (variable_lines k l u (ones_from part.now 0)) in
        Wrote buf.old (start line) text (start result) buf.new }
    ensures lines { result ≡ line + 1 + further_count (length (ones_from part.now 0)) }
{
    let further = further_lines(part);
    let mut q = write_first(k, l, u, part, line, buf);
    for i in 0..further {
        q = write_further(part, q, line + 1 + i, buf);
    }
    line + 1 + further
}

// Empty lines from content line `line` on, up to the end of its page.
fn fill_page(line: usize, buf: &mut [u8])
    requires line_bound { line ≤ 4130 }
    requires line_in_bounds { start (filled line) ≤ length buf.old }
    ensures { let text = sheet line (replicate (filled line - line) empty_line) in
        Wrote buf.old (start line) text (start (filled line)) buf.new }
{
    let end = CONTENT * ((line + (CONTENT - 1)) / CONTENT);
    for next in line..end {
        write_empty(next, buf);
    }
}

// The pages of a box and a table that passed their checks, into a buffer of their length.
pub fn write_all(n: usize, bounds: &[i32], table: &[u8], buf: &mut [u8])
    requires paper { Paper n bounds.now }
    requires table_len { length table.now ≡ 4 * (n * n) }
    requires buf_len { length buf.old ≡ page_count n table.now * page_size }
    ensures { buf.new ≡ pages_of n bounds.now table.now }
{
    let mut line = 0;
    for k in 0..n {
        let start = (2 * k + 1) * (2 * n);
        let stop = start + 2 * n;
        line = write_variable(
            k,
            bounds[2 * k],
            bounds[2 * k + 1],
            &table[start..stop],
            line,
            buf,
        );
    }
    fill_page(line, buf);
}

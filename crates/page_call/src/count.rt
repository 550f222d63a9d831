// The number of pages, from the table alone.
ghost use Rattle.std.specs.Prelude.{◌≡◌, ◌*◌, ◌≤◌, length};
ghost use Rattle.model.specs.Limits.{max_variables};
ghost use Rattle.pages.specs.Page.{further_count, line_total, page_count};
ghost use Rattle.pages.specs.Writing.{ones_from};

use page_line::CONTENT;

// The literals of a line.
const LITERALS: usize = 8;

// How many bytes are 1.
fn ones(part: &[u8]) -> usize
    ensures { result ≡ length (ones_from part.now 0) }
{
    let mut count = 0;
    for q in 0..part.len() {
        if part[q] == 1 {
            count += 1;
        }
    }
    count
}

// The lines after the first of a variable whose part of the table this is: one for every eight literals after the
// eighth.
pub fn further_lines(part: &[u8]) -> usize
    ensures { result ≡ further_count (length (ones_from part.now 0)) }
{
    let literals = ones(part);
    if literals == 0 {
        return 0;
    }
    (literals - 1) / LITERALS
}

// The lines of all variables.
fn content_lines(n: usize, table: &[u8]) -> usize
    requires n_le_max_variables { n ≤ max_variables }
    requires table_len { length table.now ≡ 4 * (n * n) }
    ensures { result ≡ line_total n table.now }
{
    let mut lines = 0;
    for k in 0..n {
        let start = (2 * k + 1) * (2 * n);
        let stop = start + 2 * n;
        lines += 1 + further_lines(&table[start..stop]);
    }
    lines
}

pub fn pages_needed(n: usize, table: &[u8]) -> usize
    requires n_le_max_variables { n ≤ max_variables }
    requires table_len { length table.now ≡ 4 * (n * n) }
    ensures { (result ≡ page_count n table.now) × (result ≤ 70) }
{
    (content_lines(n, table) + (CONTENT - 1)) / CONTENT
}

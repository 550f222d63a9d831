// The text that `reduce` prints, defined, and which of its lines have text: the lines are counted from 0 (`line_at`); a
// row that is all zero and a byte of the table that is not 1 are lines without text. The lines are written in
// `report_line` and `report_chunk`.
#![tactic(auto)]

ghost use Rattle.std.specs.Prelude.{◌≡◌, ℕ, ◌+◌, ◌-◌, ◌<◌, ◌≤◌, get_or, length};
ghost use Rattle.model.specs.Rows.{row_with};
ghost use Rattle.report.specs.Report.{is_zero_row};

// Whether b and every coefficient are 0.
pub fn is_zero_row(b: i32, coefs: &[i32]) -> bool
    ensures { result ≡ is_zero_row (row_with coefs.now b 0) }
{
    if b != 0 {
        return false;
    }
    for &coef in coefs {
        if coef != 0 {
            return false;
        }
    }
    true
}

// The next line from i on that may have text: of the table only a byte 1 has a line. `first` is the line of byte 0.
pub fn next_line(first: usize, table: &[u8], i: usize) -> usize
    requires { (i ≤ first + length table.now) × (first + length table.now < 18_446_744_073_709_551_616) }
    ensures within { (i ≤ result) × (result ≤ first + length table.now) }
    ensures silent { (q : ℕ) → i ≤ q → q < result → (first ≤ q) × (get_or table.now (q - first) 0 ≡ 1 → ⊥) }
{
    if i < first {
        return i;
    }
    for byte in i - first..table.len() {
        let is_recorded = table[byte] == 1;
        if is_recorded {
            return first + byte;
        }
    }
    first + table.len()
}

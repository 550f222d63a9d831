// A matrix in memory: m rows of n numbers, one after the other. Row r is opened here for reading, where it stands: its
// coefficients, and the bytes of a table that has one for each coefficient.
#![tactic(auto)]

ghost use Rattle.std.specs.Prelude.{◌≡◌, ◌*◌, ◌+◌, ◌≤◌, drop, length, take};
ghost use Rattle.model.specs.Rows.{row_of};

// The coefficients of row r.
pub fn coefficients<'a>(n: usize, coefs: &'a [i32], r: usize) -> &'a [i32]
    requires { r * n + n ≤ length coefs.now }
    ensures { result.now ≡ row_of n coefs.now r }
{
    let start = r * n;
    let end = start + n;
    &coefs[start..end]
}

// The bytes that stand where the coefficients of row r do in the matrix.
pub fn row_bytes<'a>(n: usize, table: &'a [u8], r: usize) -> &'a [u8]
    requires { r * n + n ≤ length table.now }
    ensures { result.now ≡ take n (drop (r * n) table.now) }
{
    let start = r * n;
    let stop = start + n;
    &table[start..stop]
}

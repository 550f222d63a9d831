// What is kept of the rows until they are propagated again: the steps from each coefficient to the next that is not
// 0, row by row, and the signs of the coefficients, column by column. Each row's steps and each column's signs are
// made where they are first needed, so that a call that ends after its first pass pays for none. Both arrays are 0
// at first; a step and a sign never are.
#![tactic(auto)]

ghost use Rattle.std.specs.Prelude.{◌≡◌, ◌⊎◌, ℕ, ◌*◌, ◌+◌, ◌<◌, ◌≤◌, length, get_or};
ghost use Rattle.model.specs.Box.{at};
ghost use Rattle.model.specs.Limits.{max_variables};
ghost use Rattle.row_index.specs.Index.{ColumnSigns, GoodStep, RowSteps, sign_of};

// 1 above 0, 2 below, 3 for 0.
fn sign(a: i32) -> u8
    ensures { result ≡ sign_of a }
{
    if a > 0 {
        return 1;
    }
    if a < 0 {
        return 2;
    }
    3
}

// Makes the steps of the row that starts at `start`, from its end.
fn fill_steps(n: usize, coefs: &[i32], start: usize, across: &mut [u8])
    requires { (n ≤ max_variables) × (start + n ≤ length coefs.now) × (start + n ≤ length across.old) }
    ensures row { (j : ℕ) → j < n → GoodStep n coefs.now start across.new j }
    ensures others { (q : ℕ) → (q < start) ⊎ (start + n ≤ q) → get_or across.new q 0 ≡ get_or across.old q 0 }
{
    let mut gap: u8 = 1;
    for j in (0..n).rev() {
        across[start + j] = gap;
        let is_nonzero = coefs[start + j] != 0;
        if is_nonzero {
            gap = 1;
        } else {
            gap += 1;
        }
    }
}

// Makes the steps of row r where they are not known yet.
pub fn know_steps(n: usize, m: usize, coefs: &[i32], r: usize, across: &mut [u8])
    requires { RowSteps n m coefs.now across.old × (r < m) }
    ensures { RowSteps n m coefs.now across.new
        × ((j : ℕ) → j < n → GoodStep n coefs.now (r * n) across.new j) }
{
    let start = r * n;
    if across[start] != 0 {
        return;
    }
    fill_steps(n, coefs, start, across);
}

// Makes the signs of column j, from `start` on.
fn fill_signs(n: usize, m: usize, coefs: &[i32], j: usize, start: usize, signs: &mut [u8])
    requires { (j < n) × (m * n ≤ length coefs.now) × (start + m ≤ length signs.old) }
    ensures column { (r : ℕ) → r < m → get_or signs.new (start + r) 0 ≡ sign_of (at coefs.now (r * n + j)) }
    ensures others { (q : ℕ) → (q < start) ⊎ (start + m ≤ q) → get_or signs.new q 0 ≡ get_or signs.old q 0 }
{
    for r in 0..m {
        signs[start + r] = sign(coefs[r * n + j]);
    }
}

// Makes the signs of column j where they are not known yet.
pub fn know_signs(n: usize, m: usize, coefs: &[i32], j: usize, signs: &mut [u8])
    requires { ColumnSigns n m coefs.now signs.old × (j < n) }
    ensures { ColumnSigns n m coefs.now signs.new
        × ((r : ℕ) → r < m → get_or signs.new (j * m + r) 0
        ≡ sign_of (at coefs.now (r * n + j))) }
{
    let start = j * m;
    if signs[start] != 0 {
        return;
    }
    fill_signs(n, m, coefs, j, start, signs);
}

// The lent list: 2n rows of n coefficients, and 2n right sides.
ghost use Rattle.std.specs.Prelude.{◌&&◌, ◌≡◌, ◌*◌, ◌+◌, ◌<◌, ◌≤◌, leb, length};
ghost use Rattle.model.specs.Box.{same_list};
ghost use Rattle.model.specs.Limits.{max_literals};
ghost use Rattle.model.specs.Rows.{row_of, splice};
ghost use Rattle.row.specs.Redundancy.{zero_row};
ghost use Rattle.cliques.specs.Cliques.{clique_row, clique_rows, cliques_to, grow as grown, meant_at_zero, rows_for};
ghost use Rattle.clique_grow.specs.Candidates.{LentTable, all_ones};
ghost use Rattle.clique_call.specs.Compared.{differs};
ghost use Rattle.clique_call.specs.CliqueAnswers.{list_of};

use boxes::same_box;
use clique_grow::{Grown, grow};
use matrix::coefficients;
use model::MAX_LITERALS;

// Sets every number to 0.
fn zero(xs: &mut [i32])
    ensures { xs.new ≡ zero_row (length xs.old) }
{
    xs.fill(0);
}

// Sets row k to 0.
fn zero_at(n: usize, coefs: &mut [i32], k: usize)
    requires { k * n + n ≤ length coefs.old }
    ensures { coefs.new ≡ splice coefs.old (zero_row n) (k * n) }
{
    let start = k * n;
    let end = start + n;
    zero(&mut coefs[start..end])
}

// A flag for each literal: all are candidates.
fn all_candidates() -> [u8; MAX_LITERALS]
    ensures { result ≡ all_ones }
{
    [1; MAX_LITERALS]
}

// Grows the clique of literal p in row k, which is all 0.
fn grow_at(n: usize, table: &[u8], p: usize, coefs: &mut [i32], k: usize) -> Grown
    requires lent_table { LentTable n table.now × (p < 2 * n) }
    requires n_in_bounds { (k * n + n ≤ length coefs.old) × (row_of n coefs.old k ≡ zero_row n) }
    ensures row { let c = grown n table.now p in
        coefs.new ≡ splice coefs.old (clique_row n c) (k * n) }
    ensures size { (result.size ≡ length (grown n table.now p)) × (result.size ≤ max_literals + 1) }
    ensures zeros { (result.zeros ≡ meant_at_zero (grown n table.now p)) × (result.zeros ≤ max_literals + 1) }
{
    let mut flags = all_candidates();
    let start = k * n;
    let end = start + n;
    grow(n, table, p, &mut flags, &mut coefs[start..end])
}

// Whether rows i and k are the same.
fn same_row(n: usize, coefs: &[i32], i: usize, k: usize) -> bool
    requires { (i * n + n ≤ length coefs.now) × (k * n + n ≤ length coefs.now) }
    ensures { result ≡ same_list (row_of n coefs.now i) (row_of n coefs.now k) }
{
    same_box(coefficients(n, coefs, i), coefficients(n, coefs, k))
}

// Whether row k differs from each row before it.
fn is_different(n: usize, coefs: &[i32], k: usize) -> bool
    requires { k * n + n ≤ length coefs.now }
    ensures { result ≡ differs n coefs.now k }
{
    for i in 0..k {
        if same_row(n, coefs, i, k) {
            return false;
        }
    }
    true
}

// Whether row k, of a clique of `size` literals, is to be kept.
fn is_kept(n: usize, coefs: &[i32], k: usize, size: usize) -> bool
    requires { k * n + n ≤ length coefs.now }
    ensures { result ≡ (leb 3 size && differs n coefs.now k) }
{
    if size < 3 {
        return false;
    }
    is_different(n, coefs, k)
}

// The clique of literal p, after those of the literals below it, of which `number` were written: written too, where it
// has three literals or more and is no earlier one. The number afterwards.
fn add_clique(
    n: usize,
    table: &[u8],
    p: usize,
    number: usize,
    coefs: &mut [i32],
    rhs: &mut [i32],
) -> usize
    requires lent_table { LentTable n table.now × (p < 2 * n) }
    requires rhs_value { list_of number coefs.old rhs.old ≡ rows_for n (cliques_to p n table.now) }
    ensures { let t = table.now in
        list_of result coefs.new rhs.new ≡ rows_for n (cliques_to (p + 1) n t) }
{
    let clique = grow_at(n, table, p, coefs, number);
    if is_kept(n, coefs, number, clique.size) {
        rhs[number] = 1 - clique.zeros as i32;
        return number + 1;
    }
    zero_at(n, coefs, number);
    number
}

// The rows of all cliques, and zeros after them: their number.
pub fn write_cliques(n: usize, table: &[u8], coefs: &mut [i32], rhs: &mut [i32]) -> usize
    requires lent_table { LentTable n table.now }
    requires coefs_len { (length coefs.old ≡ 2 * n * n) × (length rhs.old ≡ 2 * n) }
    ensures { list_of result coefs.new rhs.new ≡ clique_rows n table.now }
{
    zero(coefs);
    zero(rhs);
    let mut number = 0;
    for p in 0..2 * n {
        number = add_clique(n, table, p, number, coefs, rhs);
    }
    number
}

// A clique, grown from one literal. A flag says of each literal whether it is still a candidate: joined to all that
// were taken so far. So a literal's turn is one look at its flag, and the table is read when a literal is taken, of
// the candidates only.
#![tactic(auto)]

ghost use Rattle.std.specs.Prelude.{◌≡◌, ◌*◌, ◌+◌, ◌<◌, ◌≤◌, length, set};
ghost use Rattle.model.specs.Limits.{max_literals};
ghost use Rattle.cliques.specs.Cliques.{clique_row, coef_of, grow as grown, joined, meant_at_zero, opposite as opposite_of};
ghost use Rattle.cliques.specs.Cliques.{variable_of};
ghost use Rattle.row.specs.Redundancy.{zero_row};
ghost use Rattle.clique_grow.specs.Candidates.{LentTable, all_ones, kept_to, still as still_of};

// How many literals a clique has, and how many of them mean their variable at 0.
#[derive(Clone, Copy)]
pub struct Grown {
    pub size: usize,
    pub zeros: usize,
}

// "Variable k is 1 − v" of "variable k is v".
fn opposite(q: usize) -> usize
    requires { q < max_literals }
    ensures { result ≡ opposite_of q }
{
    2 * (q / 2) + (1 - q % 2)
}

// Whether literals p and q are of different variables and each implies the other's opposite.
fn is_joined(n: usize, table: &[u8], p: usize, q: usize) -> bool
    requires lent_table { LentTable n table.now }
    requires p_bound { (p < 2 * n) × (q < 2 * n) }
    ensures { result ≡ joined n table.now p q }
{
    if p / 2 == q / 2 {
        return false;
    }
    let there = p * (2 * n) + opposite(q);
    let back = q * (2 * n) + opposite(p);
    (table[there] == 1) & (table[back] == 1)
}

// The flag of literal r after q was taken.
fn still(n: usize, table: &[u8], flag: u8, r: usize, q: usize) -> u8
    requires lent_table { LentTable n table.now }
    requires r_bound { (r < 2 * n) × (q < 2 * n) }
    ensures { result ≡ still_of flag (joined n table.now r q) }
{
    let is_out = flag == 0;
    if is_out {
        return 0;
    }
    if is_joined(n, table, r, q) {
        return 1;
    }
    0
}

// Candidates stay those that are joined to q.
fn keep_joined(n: usize, table: &[u8], q: usize, flags: &mut [u8])
    requires lent_table { LentTable n table.now × (length flags.old ≡ max_literals) }
    requires q_bound { q < 2 * n }
    ensures { flags.new ≡ kept_to (2 * n) n table.now q flags.old }
{
    for r in 0..2 * n {
        flags[r] = still(n, table, flags[r], r, q);
    }
}

// The coefficient of a literal's variable: 1 where it is meant at 1, −1 where at 0.
fn coefficient(q: usize) -> i32
    ensures { result ≡ coef_of q }
{
    if q % 2 == 0 { -1 } else { 1 }
}

// Takes literal q: into the row, and out of the candidates go those that are not joined to it.
fn take(n: usize, table: &[u8], q: usize, flags: &mut [u8], row: &mut [i32])
    requires lent_table { LentTable n table.now × (length flags.old ≡ max_literals) }
    requires q_bound { (q < 2 * n) × (length row.old ≡ n) }
    ensures flags { flags.new ≡ kept_to (2 * n) n table.now q flags.old }
    ensures row { row.new ≡ set row.old (variable_of q) (coef_of q) }
{
    keep_joined(n, table, q, flags);
    row[q / 2] = coefficient(q);
}

// The clique of literal p, into a row that is all 0; `flags` are all 1.
pub fn grow(n: usize, table: &[u8], p: usize, flags: &mut [u8], row: &mut [i32]) -> Grown
    requires lent_table { LentTable n table.now × (flags.old ≡ all_ones) }
    requires p_bound { (p < 2 * n) × (row.old ≡ zero_row n) }
    ensures row { row.new ≡ clique_row n (grown n table.now p) }
    ensures size { (result.size ≡ length (grown n table.now p)) × (result.size ≤ max_literals + 1) }
    ensures zeros { (result.zeros ≡ meant_at_zero (grown n table.now p)) × (result.zeros ≤ max_literals + 1) }
{
    take(n, table, p, flags, row);
    let mut size: usize = 1;
    let mut zeros: usize = 1 - p % 2;
    for i in 0..2 * n {
        if flags[i] == 1 {
            take(n, table, i, flags, row);
            size += 1;
            zeros += 1 - i % 2;
        }
    }
    Grown { size, zeros }
}

// The implication table: what the two sides of a probe say of the other free binary variables.
ghost use Rattle.std.specs.Prelude.{◌≡◌, ◌+◌, ◌*◌, ◌<◌, length};
ghost use Rattle.semantics.specs.Probe.{put as puts, implies, record_side, record_to};
ghost use Rattle.two_sides.specs.Results.{table_of, Recordable};

use boxes::is_free;

// Makes byte i 1, and answers 1 where it was 0.
fn put(table: &mut [u8], i: usize) -> u32
    requires { i < length table.old }
    ensures left { table.new ≡ (puts (table_of table.old 0) i).bytes }
    ensures added { result ≡ (puts (table_of table.old 0) i).added }
{
    let old = table[i];
    table[i] = 1;
    if old == 0 { 1 } else { 0 }
}

// Records that k = v implies j = w, and that j = 1 − w implies k = 1 − v; answers how many bytes went from 0 to 1.
fn record_implication(n: usize, k: usize, v: usize, j: usize, w: usize, table: &mut [u8]) -> u32
    requires recordable { Recordable n k j table.old }
    requires v_bound { v < 2 }
    requires w_bound { w < 2 }
    ensures left { table.new ≡ (implies n k v j w (table_of table.old 0)).bytes }
    ensures added { result ≡ (implies n k v j w (table_of table.old 0)).added }
{
    let first = put(table, (2 * k + v) * (2 * n) + (2 * j + w));
    let second = put(table, (2 * j + (1 - w)) * (2 * n) + (2 * k + (1 - v)));
    first + second
}

// Records what side v of k, the box `side`, says of j: nothing where it does not fix it.
fn record_side(n: usize, k: usize, v: usize, j: usize, side: &[i32], table: &mut [u8]) -> u32
    requires recordable { Recordable n k j table.old }
    requires v_bound { v < 2 }
    requires j_in_bounds { 2 * j + 1 < length side.now }
    ensures left { table.new ≡ (record_side n k v j side.now (table_of table.old 0)).bytes }
    ensures added { result ≡ (record_side n k v j side.now (table_of table.old 0)).added }
{
    let l = side[2 * j];
    let u = side[2 * j + 1];
    if l == 0 {
        if u == 0 {
            return record_implication(n, k, v, j, 0, table);
        }
        return 0;
    }
    if l == 1 {
        if u == 1 {
            return record_implication(n, k, v, j, 1, table);
        }
    }
    0
}

// Records what the sides `zero` and `one` of k say of each other variable that is free in `bounds`, the box before the
// probe; answers how many bytes went from 0 to 1.
pub fn record_implications(
    n: usize,
    k: usize,
    bounds: &[i32],
    zero: &[i32],
    one: &[i32],
    table: &mut [u8],
) -> u32
    requires recordable { Recordable n k 0 table.old }
    requires bounds_len { length bounds.now ≡ 2 * n }
    requires zero_len { length zero.now ≡ 2 * n }
    requires one_len { length one.now ≡ 2 * n }
    ensures left { table.new
        ≡ (record_to n n k bounds.now zero.now one.now
        table.old).bytes }
    ensures added { result
        ≡ (record_to n n k bounds.now zero.now one.now
        table.old).added }
{
    let mut added: u32 = 0;
    for j in 0..n {
        if j == k {
            continue;
        }
        if !is_free(bounds, j) {
            continue;
        }
        added += record_side(n, k, 0, j, zero, table);
        added += record_side(n, k, 1, j, one, table);
    }
    added
}

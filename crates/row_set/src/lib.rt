// Sets of rows, as bits: row r is bit r % 32 of word r / 32, and four words hold the 120 rows of the largest model.
// What a pass has to look at is one set, and a bound that moves adds the rows that hear of it, whatever their number.
#![tactic(auto)]

ghost use Rattle.std.specs.Prelude.{◌≡◌, ℕ, ◌<◌, ◌≤◌, max, length};
ghost use Rattle.row_set.specs.Bits.{bit_at};

// The words of a set.
pub const SET_WORDS: usize = 4;

// The next row of the set, from r on, m if there is none.
pub fn next_row(m: usize, set: &[u32], r: usize) -> usize
    requires { (r ≤ m) × (m ≤ 128) × (length set.now ≡ 4) }
    ensures { (r ≤ result) × (result ≤ m) × ((i : ℕ) → r ≤ i → i < result → bit_at set.now i ≡ 0) }
{
    let mut s = r;
    // From word to word, whose rows are many: the step is not 1.
    while s < m {
        let x = set[s / 32] >> (s % 32);
        if x != 0 {
            return m.min(s + x.trailing_zeros() as usize);
        }
        s = (s / 32 + 1) * 32;
    }
    m
}

// Adds the rows of a set to another.
pub fn add(more: &[u32], set: &mut [u32])
    requires { (length more.now ≡ 4) × (length set.old ≡ 4) }
    ensures { (r : ℕ) → r < 128 → bit_at set.new r
        ≡ max (bit_at set.old r) (bit_at more.now r) }
{
    for i in 0..SET_WORDS {
        set[i] |= more[i];
    }
}

// Puts row r into the set. The others stay.
pub fn insert(r: usize, set: &mut [u32])
    requires { (r < 128) × (length set.old ≡ 4) }
    ensures row { bit_at set.new r ≡ 1 }
    ensures others { (i : ℕ) → (i ≡ r → ⊥) → bit_at set.new i ≡ bit_at set.old i }
{
    set[r / 32] |= 1 << (r % 32);
}

// Takes row r, which is in the set, out of it. The others stay.
pub fn remove(r: usize, set: &mut [u32])
    requires { (r < 128) × (length set.old ≡ 4) }
    ensures { (i : ℕ) → (i ≡ r → ⊥) → bit_at set.new i ≡ bit_at set.old i }
{
    set[r / 32] ^= 1 << (r % 32);
}

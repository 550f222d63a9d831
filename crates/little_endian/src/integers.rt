// Signed numbers of four bytes at even distances in a slice of bytes.
ghost use Rattle.std.specs.Prelude.{◌&&◌, ◌≡◌, ℕ, ◌+◌, ◌*◌, ◌<◌, ◌≤◌, length};
ghost use Rattle.std.specs.Int.Signed.{le_z};
ghost use Rattle.model.specs.Checks.{in_range};
ghost use Rattle.little_endian.specs.Bytes.{integers_at, integers_bytes};
ghost use Rattle.little_endian.specs.Pieces.{overwrite};

use crate::{read_i32, write_i32};

fn is_between(x: i32, low: i32, high: i32) -> bool
    ensures { result ≡ (le_z low x && le_z x high) }
{
    low <= x && x <= high
}

// Whether `count` numbers from place `at` on, one every `step` bytes, lie between low and high.
pub fn are_in_range(bytes: &[u8], at: usize, step: usize, count: usize, low: i32, high: i32) -> bool
    requires { (i : ℕ) → i < count → at + i * step + 4 ≤ length bytes.now }
    ensures { result ≡ in_range low high (integers_at at step count bytes.now) }
{
    let mut ok = true;
    for k in 0..count {
        ok &= is_between(read_i32(bytes, at + k * step), low, high);
    }
    ok
}

// Reads as many numbers as `xs` holds, one every `step` bytes from place `at` on.
pub fn read_integers(bytes: &[u8], at: usize, step: usize, xs: &mut [i32])
    requires { (i : ℕ) → i < length xs.old → at + i * step + 4 ≤ length bytes.now }
    ensures { xs.new ≡ integers_at at step (length xs.old) bytes.now }
{
    for (k, x) in xs.iter_mut().enumerate() {
        *x = read_i32(bytes, at + k * step);
    }
}

// Writes the numbers of `xs` one after the other from place `at` on.
pub fn write_integers(bytes: &mut [u8], at: usize, xs: &[i32])
    requires { at + length xs.now * 4 ≤ length bytes.old }
    ensures { bytes.new ≡ overwrite at (integers_bytes xs.now) bytes.old }
{
    for (k, &x) in xs.iter().enumerate() {
        write_i32(bytes, at + k * 4, x);
    }
}

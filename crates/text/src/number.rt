// A number in decimal, and bytes, written into a buffer at a position. Each answers the position after what it wrote.
ghost use Rattle.std.specs.Prelude.{◌≡◌, [], ◌∷◌, ◌+◌, ◌*◌, ◌≤◌, ◌<◌, pos, length};
ghost use Rattle.text.specs.Decimal.{decimal};
ghost use Rattle.text.specs.Fields.{field, fields, max_field, max_long_field};
ghost use Rattle.text.specs.Text.{Wrote};

pub fn write_byte(b: u8, buf: &mut [u8], at: usize) -> usize
    requires { at < length buf.old }
    ensures { Wrote buf.old at (b ∷ []) result buf.new }
{
    buf[at] = b;
    at + 1
}

// The digits of x: those of x / 10, and the last one.
fn write_digits(x: u64, buf: &mut [u8], at: usize) -> usize
    requires { at + length (decimal x) ≤ length buf.old }
    ensures { Wrote buf.old at (decimal x) result buf.new }
{
    if x < 10 {
        return write_byte(48 + x as u8, buf, at);
    }
    let last = write_digits(x / 10, buf, at);
    write_byte(48 + (x % 10) as u8, buf, last)
}

// A natural number after one space.
pub fn write_natural(x: u32, buf: &mut [u8], at: usize) -> usize
    requires { at + max_field ≤ length buf.old }
    ensures text { Wrote buf.old at (field (pos x)) result buf.new }
    ensures room { result ≤ at + max_field }
{
    let start = write_byte(b' ', buf, at);
    write_digits(x as u64, buf, start)
}

// A natural number of 64 bits after one space.
pub fn write_long(x: u64, buf: &mut [u8], at: usize) -> usize
    requires { at + max_long_field ≤ length buf.old }
    ensures text { Wrote buf.old at (field (pos x)) result buf.new }
    ensures room { result ≤ at + max_long_field }
{
    let start = write_byte(b' ', buf, at);
    write_digits(x, buf, start)
}

// A whole number after one space, with its sign.
pub fn write_integer(z: i32, buf: &mut [u8], at: usize) -> usize
    requires { at + max_field ≤ length buf.old }
    ensures text { Wrote buf.old at (field z) result buf.new }
    ensures room { result ≤ at + max_field }
{
    let start = write_byte(b' ', buf, at);
    if z < 0 {
        let first = write_byte(b'-', buf, start);
        return write_digits(z.unsigned_abs() as u64, buf, first);
    }
    write_digits(z.unsigned_abs() as u64, buf, start)
}

// Whole numbers, each after one space.
pub fn write_integers(xs: &[i32], buf: &mut [u8], at: usize) -> usize
    requires { at + max_field * length xs.now ≤ length buf.old }
    ensures text { Wrote buf.old at (fields xs.now) result buf.new }
    ensures room { result ≤ at + max_field * length xs.now }
{
    let mut end = at;
    for &x in xs {
        end = write_integer(x, buf, end);
    }
    end
}

// The bytes of text.
pub fn write_text(text: &[u8], buf: &mut [u8], at: usize) -> usize
    requires { at + length text.now ≤ length buf.old }
    ensures { Wrote buf.old at text.now result buf.new }
{
    let end = at + text.len();
    buf[at..end].copy_from_slice(text);
    end
}

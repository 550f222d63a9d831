// Numbers of 16 and 32 bits in a slice of bytes, the lowest byte first; 32 bits also in two's complement.
#![tactic(auto)]

ghost use Rattle.std.specs.Prelude.{◌≡◌, ◌+◌, ◌≤◌, length};
ghost use Rattle.little_endian.specs.Bytes.{bytes_of, integer_at, integer_bytes, number_at};
ghost use Rattle.little_endian.specs.Pieces.{overwrite};

pub mod integers;

// The numbers that a byte can be.
pub const BYTE: usize = 256;

pub fn read_u16(bytes: &[u8], at: usize) -> u16
    requires { at + 2 ≤ length bytes.now }
    ensures { result ≡ number_at 2 at bytes.now }
{
    u16::from_le_bytes([bytes[at], bytes[at + 1]])
}

pub fn read_u32(bytes: &[u8], at: usize) -> u32
    requires { at + 4 ≤ length bytes.now }
    ensures { result ≡ number_at 4 at bytes.now }
{
    u32::from_le_bytes([bytes[at], bytes[at + 1], bytes[at + 2], bytes[at + 3]])
}

pub fn read_i32(bytes: &[u8], at: usize) -> i32
    requires { at + 4 ≤ length bytes.now }
    ensures { result ≡ integer_at at bytes.now }
{
    read_u32(bytes, at).cast_signed()
}

pub fn write_u16(bytes: &mut [u8], at: usize, x: u16)
    requires { at + 2 ≤ length bytes.old }
    ensures { bytes.new ≡ overwrite at (bytes_of 2 x) bytes.old }
{
    bytes[at..at + 2].copy_from_slice(&x.to_le_bytes());
}

pub fn write_u32(bytes: &mut [u8], at: usize, x: u32)
    requires { at + 4 ≤ length bytes.old }
    ensures { bytes.new ≡ overwrite at (bytes_of 4 x) bytes.old }
{
    bytes[at..at + 4].copy_from_slice(&x.to_le_bytes());
}

pub fn write_i32(bytes: &mut [u8], at: usize, x: i32)
    requires { at + 4 ≤ length bytes.old }
    ensures { bytes.new ≡ overwrite at (integer_bytes x) bytes.old }
{
    write_u32(bytes, at, x.cast_unsigned());
}

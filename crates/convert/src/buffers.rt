// A buffer for the longest sparse book, and so for any book.
ghost use Rattle.std.specs.Prelude.{◌≡◌, length};
ghost use Rattle.convert.specs.Output.{max_sparse};

// 8 · 128 + 120 · (7 + 6 · 128) + 16 bytes.
pub const MAX_SPARSE: usize = 94_040;

pub fn longest_sparse() -> [u8; MAX_SPARSE]
    ensures { max_sparse ≡ length result }
{
    [0; MAX_SPARSE]
}

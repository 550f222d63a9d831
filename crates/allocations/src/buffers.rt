// A buffer for the longest input.
ghost use Rattle.std.specs.Prelude.{◌≡◌, length};
ghost use Rattle.allocation_input.specs.Input.{max_input};

// The longest book, 62,960 bytes, a count, 4, and 64 · 128 numbers of 4.
pub const MAX_INPUT: usize = 95_732;

pub fn longest_input() -> [u8; MAX_INPUT]
    ensures { max_input ≡ length result }
{
    [0; MAX_INPUT]
}

// The buffers of the largest book, 128 variables and 120 rows. A caller learns what it needs
// of them, and not each number.
ghost use Rattle.std.specs.Prelude.{◌≡◌, length};
ghost use Rattle.model.specs.Limits.{max_box, max_matrix, max_rows, max_table};
ghost use Rattle.intake.specs.Checks.{max_book};
ghost use Rattle.reduction.specs.Output.{zeros};

use intake::MAX_BOOK;
use model::{MAX_BOX, MAX_MATRIX, MAX_ROWS, MAX_TABLE};

pub fn longest_book() -> [u8; MAX_BOOK]
    ensures { max_book ≡ length result }
{
    [0; MAX_BOOK]
}

pub fn most_bounds() -> [i32; MAX_BOX]
    ensures { max_box ≡ length result }
{
    [0; MAX_BOX]
}

pub fn most_coefs() -> [i32; MAX_MATRIX]
    ensures { max_matrix ≡ length result }
{
    [0; MAX_MATRIX]
}

pub fn most_rhs() -> [i32; MAX_ROWS]
    ensures { max_rows ≡ length result }
{
    [0; MAX_ROWS]
}

pub fn most_kinds() -> [u8; MAX_ROWS]
    ensures { max_rows ≡ length result }
{
    [0; MAX_ROWS]
}

pub fn largest_table() -> [u8; MAX_TABLE]
    ensures { result ≡ zeros max_table }
{
    [0; MAX_TABLE]
}

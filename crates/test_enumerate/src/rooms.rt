// Room for a model of n variables, 2 to 4: with 2 it has 2 rows, with more 3. A part of the room is
// its first numbers, at most all.
use test_text::parts::part_mut;

pub fn row_count(n: usize) -> usize {
    if n == 2 { 2 } else { 3 }
}

// The bounds' part, two numbers a variable.
pub fn bounds_part(room: &mut [i32], n: usize) -> &mut [i32] {
    match n {
        2 => part_mut(room, 4),
        3 => part_mut(room, 6),
        _ => part_mut(room, 8),
    }
}

// The coefficients' part, a number for each row and variable.
pub fn coefs_part(room: &mut [i32], n: usize) -> &mut [i32] {
    match n {
        2 => part_mut(room, 4),
        3 => part_mut(room, 9),
        _ => part_mut(room, 12),
    }
}

// The part of the right sides or of the kinds, one for each row.
pub fn rows_part<T>(room: &mut [T], n: usize) -> &mut [T] {
    part_mut(room, row_count(n))
}

// The table's part, 4 n n bytes.
pub fn table_part(room: &mut [u8], n: usize) -> &mut [u8] {
    match n {
        2 => part_mut(room, 16),
        3 => part_mut(room, 36),
        _ => part_mut(room, 64),
    }
}

// A mark for each point of the grid, 6 for each variable.
pub fn marks_part(room: &mut [bool], n: usize) -> &mut [bool] {
    match n {
        2 => part_mut(room, 36),
        3 => part_mut(room, 216),
        _ => part_mut(room, 1_296),
    }
}

// The points of a model of at most four variables, and what holds at them. The points are those of a grid: every whole
// number from -2 to 3 for each variable.
use test_text::parts::columns;
use test_text::seen::Model;

pub type Point = [i32; 4];

const GRID: [i32; 6] = [0, 1, 2, 3, -2, -1];

// Point k of the grid.
pub fn grid_point(k: usize) -> Point {
    [
        GRID[k % 6],
        GRID[k / 6 % 6],
        GRID[k / 36 % 6],
        GRID[k / 216 % 6],
    ]
}

fn coordinate(point: Point, j: usize) -> i32 {
    point.get(j).copied().unwrap_or(0)
}

fn in_box(bounds: &[i32], point: Point) -> bool {
    for j in 0..bounds.len() / 2 {
        let x = coordinate(point, j);
        if x < bounds[2 * j] || x > bounds[2 * j + 1] {
            return false;
        }
    }
    true
}

// The sum of a row at a point.
fn sum(row: &[i32], point: Point) -> i64 {
    row.iter().enumerate().fold(0i64, |sum, (j, a)| {
        sum.saturating_add(i64::from(*a) * i64::from(coordinate(point, j)))
    })
}

fn is_equality(kinds: &[u8], r: usize) -> bool {
    kinds.get(r) == Some(&1)
}

// Whether row r does not hold where its sum is this.
fn fails(sum: i64, rhs: &[i32], kinds: &[u8], r: usize) -> bool {
    match rhs.get(r) {
        Some(b) if is_equality(kinds, r) => sum != i64::from(*b),
        Some(b) => sum > i64::from(*b),
        None => true,
    }
}

fn meets_rows(model: Model<'_>, point: Point) -> bool {
    let rows = model.coefs.chunks_exact(columns(model.n));
    for (r, row) in rows.enumerate() {
        if fails(sum(row, point), model.rhs, model.kinds, r) {
            return false;
        }
    }
    true
}

// Marks the integer points of a model.
pub fn mark(model: Model<'_>, marks: &mut [bool]) {
    for (k, mark) in marks.iter_mut().enumerate() {
        let point = grid_point(k);
        *mark = in_box(model.bounds, point) && meets_rows(model, point);
    }
}

// How many points are marked in one list and not in the other.
pub fn differences(before: &[bool], after: &[bool]) -> usize {
    before
        .iter()
        .zip(after)
        .filter(|(old, new)| *old != *new)
        .count()
}

// Whether literal p, variable p / 2 is p % 2, is true at a point.
fn is_true(point: Point, p: usize) -> bool {
    let x = coordinate(point, p / 2);
    if p % 2 == 0 { x == 0 } else { x == 1 }
}

// Whether what a literal that is true implies is true as well.
fn holds(row: &[u8], point: Point) -> bool {
    row.iter()
        .enumerate()
        .all(|(q, recorded)| *recorded == 0 || is_true(point, q))
}

// Whether every recorded implication holds at a point.
fn all_hold(literals: usize, table: &[u8], point: Point) -> bool {
    table
        .chunks(columns(literals))
        .enumerate()
        .all(|(p, row)| !is_true(point, p) || holds(row, point))
}

// At how many marked points a recorded implication fails.
pub fn broken(literals: usize, table: &[u8], marks: &[bool]) -> usize {
    marks
        .iter()
        .enumerate()
        .filter(|(k, mark)| **mark && !all_hold(literals, table, grid_point(*k)))
        .count()
}

// How many points are marked.
pub fn marked(marks: &[bool]) -> usize {
    marks.iter().filter(|mark| **mark).count()
}

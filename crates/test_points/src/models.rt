// The models by number. The digits of the number choose the box of each of four variables, each of twelve coefficients,
// each of three right sides and each of three kinds; a family uses the first of them.
ghost use Rattle.std.specs.Prelude.{◌<◌};

// All ten boxes within -1..2, each l and u.
const BOXES: [(i32, i32); 10] = [
    (0, 0),
    (0, 1),
    (0, 2),
    (1, 1),
    (1, 2),
    (2, 2),
    (-1, -1),
    (-1, 0),
    (-1, 1),
    (-1, 2),
];

const COEFS: [i32; 5] = [0, 1, 2, -2, -1];

const SIDES: [i32; 7] = [0, 1, 2, 3, -3, -2, -1];

const LOWERED: [i32; 7] = [-1, 0, 1, 2, -4, -3, -2];

const KINDS: [u8; 2] = [0, 1];

// The model number of member i of all the models with two variables and two rows.
pub fn pair_code(i: usize) -> usize {
    i % 100 + i / 100 % 625 * 10_000 + i / 62_500 % 49 * 2_441_406_250_000
}

// The next model number of the linear congruence that draws larger models.
pub fn next_code(code: usize) -> usize {
    (code % 837_402_343_749_997 * 4_093 + 12_345_678_901) % 837_402_343_749_997
}

// The box of each variable.
pub fn boxes(bounds: &mut [i32], code: usize) {
    let mut rest = code;
    for j in 0..bounds.len() / 2 {
        let (lower, upper) = BOXES[rest % 10];
        bounds[2 * j] = lower;
        bounds[2 * j + 1] = upper;
        rest /= 10;
    }
}

// The digits of a number, each as the value that it chooses.
fn digits<T: Copy, const N: usize>(xs: &mut [T], values: [T; N], code: usize)
    requires { 0 < N }
{
    let mut rest = code;
    for x in xs {
        *x = values[rest % N];
        rest /= N;
    }
}

// Coefficients from -2 to 2.
pub fn coefficients(xs: &mut [i32], code: usize) {
    digits(xs, COEFS, code / 10_000);
}

// Right sides from -3 to 3.
fn sides(xs: &mut [i32], code: usize) {
    digits(xs, SIDES, code / 2_441_406_250_000);
}

// The same right sides, each less by 1.
pub fn lowered(xs: &mut [i32], code: usize) {
    digits(xs, LOWERED, code / 2_441_406_250_000);
}

// The kind of each row.
fn kinds(xs: &mut [u8], code: usize) {
    digits(xs, KINDS, code / 837_402_343_750_000);
}

// The same model with other kinds: bit r says that row r is an = row.
fn with_bits(code: usize, bits: usize) -> usize {
    code % 837_402_343_750_000 + bits % 8 * 837_402_343_750_000
}

// The same model with = rows: the bits 1 to 7 in turn; with two rows 1 to 3.
pub fn with_kinds(n: usize, i: usize, code: usize) -> usize {
    if n == 2 {
        with_bits(code, i % 3 + 1)
    } else {
        with_bits(code, i % 7 + 1)
    }
}

// Puts model `code` into the lent buffers.
pub fn put_model(
    code: usize,
    bounds: &mut [i32],
    coefs: &mut [i32],
    rhs: &mut [i32],
    kinds_room: &mut [u8],
) {
    boxes(bounds, code);
    coefficients(coefs, code);
    sides(rhs, code);
    kinds(kinds_room, code);
}

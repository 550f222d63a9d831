// A model in lent buffers, and the lines that change it:
//   size N M                    the numbers of variables and of rows
//   bounds LENGTH X ..          as many bounds, X .. over and over; coefs, rhs, kinds and table likewise; rhs makes as
//                               many kinds 0
//   put bounds PLACE COUNT X .. as many from that place on; coefs, rhs, kinds and table likewise
// A book is in the table's place, and its lines say `data`. Every other line leaves the model.
use test_text::parts::part_mut;
use test_text::words::{Word, behind, fill, number, second};

// n and m as the calls are told them, and how much of each buffer they are lent.
#[derive(Clone, Copy, Default)]
pub struct Sizes {
    pub n: usize,
    pub m: usize,
    pub bounds: usize,
    pub coefs: usize,
    pub rhs: usize,
    pub kinds: usize,
    pub table: usize,
}

// As many numbers, the words of a line over and over.
fn set<T: From<Word> + Copy>(line: &[u8], xs: &mut [T]) -> usize {
    let len = number(line, 1);
    fill(behind(line, 1), part_mut(xs, len));
    len
}

// As many ≤ rows.
fn no_equality(len: usize, kinds: &mut [u8]) -> usize {
    part_mut(kinds, len).fill(0);
    len
}

fn put<T: From<Word> + Copy>(line: &[u8], xs: &mut [T]) {
    let place: usize = number(line, 2);
    if place <= xs.len() {
        fill(behind(line, 3), part_mut(&mut xs[place..], number(line, 3)));
    }
}

fn put_some(
    line: &[u8],
    bounds: &mut [i32],
    coefs: &mut [i32],
    rhs: &mut [i32],
    kinds: &mut [u8],
    table: &mut [u8],
) {
    match second(line) {
        Some(b'b') => put(line, bounds),
        Some(b'c') => put(line, coefs),
        Some(b'r') => put(line, rhs),
        Some(b'k') => put(line, kinds),
        _ => put(line, table),
    }
}

pub fn change(
    line: &[u8],
    sizes: Sizes,
    bounds: &mut [i32],
    coefs: &mut [i32],
    rhs: &mut [i32],
    kinds: &mut [u8],
    table: &mut [u8],
) -> Sizes {
    let mut sizes = sizes;
    match line.first() {
        Some(b's') => {
            sizes.n = number(line, 1);
            sizes.m = number(line, 2);
        }
        Some(b'b') => sizes.bounds = set(line, bounds),
        Some(b'c') => sizes.coefs = set(line, coefs),
        Some(b'r') => {
            sizes.rhs = set(line, rhs);
            sizes.kinds = no_equality(sizes.rhs, kinds);
        }
        Some(b'k') => sizes.kinds = set(line, kinds),
        Some(b't' | b'd') => sizes.table = set(line, table),
        Some(b'p') => put_some(line, bounds, coefs, rhs, kinds, table),
        _ => {}
    }
    sizes
}

// A tie of two variables as a line: the variables, the answer, and the tie list after it.
use model::refusal::Refusal;
use std::io::Stdout;
use test_text::parts::part_mut;
use test_text::print::{item, list, number, refused, text};
use test_text::words::{self, behind, fill};
use tie_call::{TieMade, tie};

fn answer(out: Stdout, a: Result<TieMade, Refusal>) {
    match a {
        Err(refusal) => refused(out, refusal),
        Ok(TieMade::Tied) => text(out, b" tied"),
        Ok(TieMade::Unchanged) => text(out, b" unchanged"),
    }
}

// The line has k and j, the length of the list, and its places, over and over.
pub fn of_line(
    out: Stdout,
    words: &[u8],
    n: usize,
    m: usize,
    bounds: &[i32],
    coefs: &mut [i32],
    rhs: &mut [i32],
    kinds: &[u8],
    table: &[u8],
) {
    let mut room = [0u16; 160];
    let k = words::number(words, 1);
    let j = words::number(words, 2);
    let ties = part_mut(&mut room, words::number(words, 3));
    fill(behind(words, 3), ties);
    item(out, b"tie", k);
    number(out, j);
    answer(out, tie(n, m, bounds, coefs, rhs, kinds, table, ties, k, j));
    list(out, b":", ties);
}

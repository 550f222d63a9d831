// Call lists (01's run sheets), as numbers and as records, and what they leave.
use call::{Call, Counts};
use call_list::run_four;
use flat_list::{run, run_classes};
use model::refusal::Refusal;
use rest::Rest;
use std::io::Stdout;
use test_text::parts::part_mut;
use test_text::print::{item, line, list, number, refused, text};
use test_text::words::{self, behind, fill};

// The four counts: refused, infeasible, changed, unchanged.
fn ran(out: Stdout, a: Result<Counts, Refusal>) {
    match a {
        Err(refusal) => refused(out, refusal),
        Ok(counts) => {
            text(out, b" ran");
            number(out, counts.refused);
            number(out, counts.infeasible);
            number(out, counts.changed);
            number(out, counts.unchanged);
        }
    }
}

// Runs a list of numbers, four a record.
fn execute(
    out: Stdout,
    words: &[u8],
    n: usize,
    m: usize,
    bounds: &mut [i32],
    coefs: &[i32],
    rhs: &[i32],
    kinds: &[u8],
    table: &mut [u8],
) {
    let mut room = [0u32; 64];
    let calls = part_mut(&mut room, words::number(words, 1));
    fill(behind(words, 1), calls);
    text(out, b":");
    ran(out, run(n, m, bounds, coefs, rhs, kinds, table, calls));
    line(out);
}

// The same, with as many bytes lent for what the records did as the first number says, each 9 before.
fn execute_classes(
    out: Stdout,
    words: &[u8],
    n: usize,
    m: usize,
    bounds: &mut [i32],
    coefs: &[i32],
    rhs: &[i32],
    kinds: &[u8],
    table: &mut [u8],
) {
    let mut room = [0u32; 64];
    let mut classes_room = [9u8; 16];
    let calls = part_mut(&mut room, words::number(words, 2));
    fill(behind(words, 2), calls);
    let classes = part_mut(&mut classes_room, words::number(words, 1));
    text(out, b":");
    ran(
        out,
        run_classes(n, m, bounds, coefs, rhs, kinds, table, calls, classes),
    );
    list(out, b" did", classes);
}

// The call that the first four words are.
pub fn record(words: &[u8]) -> Call {
    Call {
        kind: words::number(words, 0),
        row: words::number(words, 1),
        variable: words::number(words, 2),
        budget: words::number(words, 3),
    }
}

// Runs a list of four records.
fn execute_records(
    out: Stdout,
    words: &[u8],
    n: usize,
    m: usize,
    bounds: &mut [i32],
    coefs: &[i32],
    rhs: &[i32],
    kinds: &[u8],
    table: &mut [u8],
) {
    let calls = [
        record(behind(words, 0)),
        record(behind(words, 4)),
        record(behind(words, 8)),
        record(behind(words, 12)),
    ];
    text(out, b":");
    ran(out, run_four(n, m, bounds, coefs, rhs, kinds, table, calls));
    line(out);
}

pub fn answer(
    out: Stdout,
    words: &[u8],
    n: usize,
    m: usize,
    bounds: &mut [i32],
    coefs: &[i32],
    rhs: &[i32],
    kinds: &[u8],
    table: &mut [u8],
) {
    match words.first() {
        Some(b'e') => execute(out, words, n, m, bounds, coefs, rhs, kinds, table),
        Some(b'D') => execute_classes(out, words, n, m, bounds, coefs, rhs, kinds, table),
        _ => execute_records(out, words, n, m, bounds, coefs, rhs, kinds, table),
    }
}

// Whether the box that a list leaves is at rest.
pub fn rest(out: Stdout, answer: Result<Rest, Refusal>) {
    match answer {
        Err(refusal) => {
            text(out, b" ");
            refused(out, refusal);
        }
        Ok(Rest::AtRest) => text(out, b"  at rest"),
        Ok(Rest::ByRow(r)) => item(out, b"  not at rest by row", r),
        Ok(Rest::ByVariable(k)) => item(out, b"  not at rest by variable", k),
    }
    line(out);
}

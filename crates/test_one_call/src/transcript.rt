// A call on the model itself as a line: the record and the answer.
use crate::in_words;
use crate::made::make;
use call::{Call, PROBE, PROPAGATE, PROPAGATE_ROW, REMOVE_ROW, TIGHTEN_COEFFICIENT};
use std::io::Stdout;
use test_text::print::{line, number, text};

// 01's word for a kind.
pub fn name(out: Stdout, kind: u32) {
    match kind {
        PROPAGATE_ROW => text(out, b"visit"),
        PROPAGATE => text(out, b"settle"),
        PROBE => text(out, b"probe"),
        TIGHTEN_COEFFICIENT => text(out, b"sharpen"),
        REMOVE_ROW => text(out, b"drop"),
        _ => text(out, b"rest"),
    }
}

// A record as 01 has it: kind, row, variable, budget.
fn record(out: Stdout, call: Call) {
    name(out, call.kind);
    number(out, call.row);
    number(out, call.variable);
    number(out, call.budget);
}

// One call as a line.
pub fn step(
    out: Stdout,
    n: usize,
    m: usize,
    bounds: &mut [i32],
    coefs: &mut [i32],
    rhs: &mut [i32],
    kinds: &mut [u8],
    table: &mut [u8],
    call: Call,
) {
    record(out, call);
    in_words::answer(out, make(n, m, bounds, coefs, rhs, kinds, table, call));
    line(out);
}

// A call on a copy of the model: its answer, and the numbers that changed, each as place = value. No place behind an
// answer means that every number stayed.
use crate::in_words;
use crate::made::make;
use crate::transcript::name;
use call::{Call, PROBE, PROPAGATE, PROPAGATE_ROW, TIGHTEN_COEFFICIENT};
use std::fmt::Display;
use std::io::Stdout;
use test_text::print::{item, line, text};
use test_text::seen::Model;

// A copy, in room that is lent for it.
fn copied<'a, T: Copy>(from: &[T], room: &'a mut [T]) -> &'a mut [T] {
    let len = from.len().min(room.len());
    let copy = &mut room[..len];
    copy.copy_from_slice(&from[..len]);
    copy
}

fn change<T: Display + Copy>(out: Stdout, word: &[u8], place: usize, value: T) {
    item(out, word, place);
    item(out, b" =", value);
}

// The places where a list differs from what it was.
fn changes<T: Display + Copy + PartialEq>(out: Stdout, word: &[u8], before: &[T], after: &[T]) {
    for i in 0..before.len().min(after.len()) {
        let new = after[i];
        if new != before[i] {
            change(out, word, i, new);
        }
    }
}

// 01's word for a kind, as wide as the longest.
fn label(out: Stdout, kind: u32) {
    text(out, b"  ");
    name(out, kind);
    match kind {
        PROPAGATE_ROW | PROBE => text(out, b"  "),
        PROPAGATE => text(out, b" "),
        TIGHTEN_COEFFICIENT => {}
        _ => text(out, b"   "),
    }
}

// The places where any buffer differs from what it was.
fn all_changes(out: Stdout, before: Model<'_>, after: Model<'_>) {
    changes(out, b", bounds", before.bounds, after.bounds);
    changes(out, b", coefs", before.coefs, after.coefs);
    changes(out, b", rhs", before.rhs, after.rhs);
    changes(out, b", kinds", before.kinds, after.kinds);
    changes(out, b", table", before.table, after.table);
}

pub fn one(out: Stdout, model: Model<'_>, call: Call) {
    let mut bounds_room = [0i32; 256];
    let mut coefs_room = [0i32; 15_360];
    let mut rhs_room = [0i32; 120];
    let mut kinds_room = [0u8; 120];
    let mut table_room = [0u8; 65_536];
    let n = model.n;
    let m = model.m;
    let bounds = copied(model.bounds, &mut bounds_room);
    let coefs = copied(model.coefs, &mut coefs_room);
    let rhs = copied(model.rhs, &mut rhs_room);
    let kinds = copied(model.kinds, &mut kinds_room);
    let table = copied(model.table, &mut table_room);
    label(out, call.kind);
    in_words::answer(out, make(n, m, bounds, coefs, rhs, kinds, table, call));
    let after = Model {
        n,
        m,
        bounds,
        coefs,
        rhs,
        kinds,
        table,
    };
    all_changes(out, model, after);
    line(out);
}

// All six, each on its own copy; the record's kind is not looked at.
pub fn all(out: Stdout, model: Model<'_>, call: Call) {
    for kind in 1..=6 {
        one(out, model, Call { kind, ..call });
    }
}

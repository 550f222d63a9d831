// Families of models, each with what was tried and what disagreed.
use crate::attempt::{Case, attempt};
use crate::lies::Lie;
use crate::rooms::{bounds_part, coefs_part, marks_part, row_count, rows_part};
use crate::runs::ends_meet;
use call::{Call, PROBE, PROPAGATE_ROW, REMOVE_ROW, TIGHTEN_COEFFICIENT};
use std::io::Stdout;
use test_points::models::put_model;
use test_points::{grid, models};
use test_text::print::{item, line, text};
use test_text::seen::Model;

// What a family had, and what was found.
#[derive(Clone, Copy, Default)]
struct Tally {
    models: usize,
    // Their integer points.
    points: usize,
    calls: usize,
    // Calls that disagreed.
    wrong: usize,
    // Pairs of runs whose ends do not meet.
    apart: usize,
}

// Whether a call is one of a model's: a row or a variable that its kind lacks is 0. A kind beyond them, the rounds, has
// neither.
fn applies(n: usize, call: Call) -> bool {
    if call.row as usize >= row_count(n) || call.variable as usize >= n {
        return false;
    }
    match call.kind {
        PROPAGATE_ROW | REMOVE_ROW => call.variable == 0,
        PROBE => call.row == 0,
        TIGHTEN_COEFFICIENT => true,
        _ => call.row == 0 && call.variable == 0,
    }
}

fn add(total: &mut usize, x: usize) {
    *total = total.saturating_add(x);
}

// Call c of a model, where it has such a call.
fn one_call(case: Case<'_>, c: u32, tally: &mut Tally) {
    let call = Call {
        kind: c % 6 + 1,
        row: c / 6 % 3,
        variable: c / 18,
        budget: budget_of(case.code),
    };
    if applies(case.n, call) {
        let agreed = attempt(case, call);
        add(&mut tally.calls, 1);
        add(&mut tally.wrong, usize::from(!agreed));
    }
}

// Propagations and probes have 1 pass for every second model.
fn budget_of(code: usize) -> u32 {
    if code % 2 == 0 { 1_000 } else { 1 }
}

fn each_call(case: Case<'_>, tally: &mut Tally) {
    for c in 0..72 {
        one_call(case, c, tally);
    }
}

fn mark_model(n: usize, code: usize, marks: &mut [bool]) {
    let mut box_room = [0i32; 8];
    let mut coef_room = [0i32; 12];
    let mut side_room = [0i32; 3];
    let mut kind_room = [0u8; 3];
    let bounds = bounds_part(&mut box_room, n);
    let coefs = coefs_part(&mut coef_room, n);
    let rhs = rows_part(&mut side_room, n);
    let kinds = rows_part(&mut kind_room, n);
    put_model(code, bounds, coefs, rhs, kinds);
    let model = Model {
        n,
        m: row_count(n),
        bounds,
        coefs,
        rhs,
        kinds,
        table: &[],
    };
    grid::mark(model, marks);
}

fn model(n: usize, code: usize, lie: Option<Lie>, tally: &mut Tally) {
    let mut room = [false; 1_296];
    let marks = marks_part(&mut room, n);
    mark_model(n, code, marks);
    let case = Case {
        n,
        code,
        marks,
        lie,
    };
    each_call(case, tally);
    add(&mut tally.models, 1);
    add(&mut tally.points, grid::marked(case.marks));
    add(&mut tally.apart, usize::from(!ends_meet(case)));
}

// The models of two variables in steps of 37, and those of more by the congruence.
fn next_model(n: usize, i: usize, code: usize) -> usize {
    if n == 2 {
        models::pair_code(i % 1_000_000 * 37)
    } else {
        models::next_code(code)
    }
}

// The same model, with = rows where the family has them.
fn kinded(n: usize, i: usize, code: usize, equality: bool) -> usize {
    if equality {
        models::with_kinds(n, i, code)
    } else {
        code
    }
}

fn print(out: Stdout, word: &[u8], tally: Tally) {
    text(out, word);
    item(out, b": models", tally.models);
    item(out, b", points", tally.points);
    item(out, b", calls", tally.calls);
    item(out, b", wrong", tally.wrong);
    item(out, b", apart", tally.apart);
    line(out);
}

fn family(out: Stdout, word: &[u8], n: usize, size: usize, lie: Option<Lie>, equality: bool) {
    let mut tally = Tally::default();
    let mut code = 0;
    for i in 0..size {
        code = next_model(n, i, code);
        model(n, kinded(n, i, code, equality), lie, &mut tally);
    }
    print(out, word, tally);
}

// All models with n = 2 and m = 2 in steps of 37, and larger ones by the congruence; then such models with = rows.
pub fn families(out: Stdout) {
    family(out, b"n 2 m 2", 2, 82_771, None, false);
    family(out, b"n 3 m 3", 3, 4_000, None, false);
    family(out, b"n 4 m 3", 4, 1_000, None, false);
    family(out, b"n 2 m 2, = rows", 2, 20_000, None, true);
    family(out, b"n 3 m 3, = rows", 3, 2_000, None, true);
    family(out, b"n 4 m 3, = rows", 4, 500, None, true);
}

// A family of calls that each leave something wrong.
fn lying(out: Stdout, word: &[u8], size: usize, lie: Lie) {
    let equality = lie == Lie::EqualityLost;
    family(out, word, 2, size, Some(lie), equality);
}

// The same comparison over such families, one for each mistake.
pub fn lies(out: Stdout) {
    lying(out, b"lie 1", 20_000, Lie::RightSideLowered);
    lying(out, b"lie 2", 2_000, Lie::BoundCut);
    lying(out, b"lie 3", 2_000, Lie::BoundMovedOut);
    lying(out, b"lie 4", 2_000, Lie::ImplicationInvented);
    lying(out, b"lie 5", 2_000, Lie::InfeasibleSaid);
    lying(out, b"lie 6", 2_000, Lie::MoveNotCounted);
    lying(out, b"lie 7", 2_000, Lie::EqualityLost);
}

// One call on a model, and whether the points agree with those of before.
use crate::lies::{Lie, spoil, spoil_before};
use crate::moved;
use crate::rooms::{bounds_part, coefs_part, row_count, rows_part, table_part};
use call::{Call, REMOVE_ROW};
use rounds::RoundsMade;
use test_one_call::made::{is_infeasible, make};
use test_points::grid;
use test_points::models::{boxes, put_model};
use test_text::parts::part_mut;
use test_text::seen::Model;

// A model by its number, its points, and the mistake put into what a call leaves.
#[derive(Clone, Copy)]
pub struct Case<'a> {
    pub n: usize,
    pub code: usize,
    pub marks: &'a [bool],
    pub lie: Option<Lie>,
}

// What a call said of the model, where the number of bounds that it moved is right; else that it is not.
#[derive(Clone, Copy, PartialEq, Eq)]
enum Said {
    Infeasible,
    Open,
    Miscounted,
}

fn verdict(is_infeasible: bool) -> Said {
    if is_infeasible {
        Said::Infeasible
    } else {
        Said::Open
    }
}

// Makes a call on the case's model.
fn say_call(
    case: Case<'_>,
    bounds: &mut [i32],
    coefs: &mut [i32],
    rhs: &mut [i32],
    kinds: &mut [u8],
    table: &mut [u8],
    call: Call,
) -> Said {
    let made = make(
        case.n,
        row_count(case.n),
        bounds,
        coefs,
        rhs,
        kinds,
        table,
        call,
    );
    let mut room = [0i32; 8];
    let before = bounds_part(&mut room, case.n);
    boxes(before, case.code);
    spoil_before(case.lie, before);
    if moved::agrees(call.kind, made, before, bounds) {
        verdict(is_infeasible(made))
    } else {
        Said::Miscounted
    }
}

// Runs the rounds of `reduce` on a model.
fn say_rounds(
    n: usize,
    bounds: &mut [i32],
    coefs: &mut [i32],
    rhs: &mut [i32],
    kinds: &mut [u8],
    table: &mut [u8],
) -> Said {
    let answer = rounds_call::run(n, row_count(n), bounds, coefs, rhs, kinds, table, 8);
    verdict(matches!(answer, Ok(RoundsMade::Infeasible(_, _))))
}

// Whether the points are those that were marked before, a model that is said to be infeasible has none, and each
// recorded implication holds.
pub fn agrees(model: Model<'_>, marks: &[bool], infeasible: bool) -> bool {
    let mut room = [false; 1_296];
    let after = part_mut(&mut room, marks.len());
    grid::mark(model, after);
    grid::differences(marks, after) == 0
        && grid::broken(model.bounds.len(), model.table, marks) == 0
        && (!infeasible || grid::marked(marks) == 0)
}

// Makes a call on the case's model, or for a kind beyond them the rounds of `reduce`, and puts the mistake in.
fn say(
    case: Case<'_>,
    bounds: &mut [i32],
    coefs: &mut [i32],
    rhs: &mut [i32],
    kinds: &mut [u8],
    table: &mut [u8],
    call: Call,
) -> Said {
    let said = if call.kind <= REMOVE_ROW {
        say_call(case, bounds, coefs, rhs, kinds, table, call)
    } else {
        say_rounds(case.n, bounds, coefs, rhs, kinds, table)
    };
    if let Some(lie) = case.lie {
        spoil(lie, case.code, call, bounds, coefs, rhs, kinds, table);
    }
    said
}

// One call on a fresh model, with a mistake put in: whether the points and the bounds moved agree.
pub fn attempt(case: Case<'_>, call: Call) -> bool {
    let mut box_room = [0i32; 8];
    let mut coef_room = [0i32; 12];
    let mut side_room = [0i32; 3];
    let mut kind_room = [0u8; 3];
    let mut table_room = [0u8; 64];
    let n = case.n;
    let bounds = bounds_part(&mut box_room, n);
    let coefs = coefs_part(&mut coef_room, n);
    let rhs = rows_part(&mut side_room, n);
    let kinds = rows_part(&mut kind_room, n);
    let table = table_part(&mut table_room, n);
    put_model(case.code, bounds, coefs, rhs, kinds);
    let said = say(case, bounds, coefs, rhs, kinds, table, call);
    let left = Model {
        n,
        m: row_count(n),
        bounds,
        coefs,
        rhs,
        kinds,
        table,
    };
    let infeasible = said == Said::Infeasible || case.lie == Some(Lie::InfeasibleSaid);
    said != Said::Miscounted && agrees(left, case.marks, infeasible)
}

// Two runs that part with the same model: row by row, a propagation and probes upwards, and probes, row by row and a
// propagation of one pass downwards, until the rest call says yes.
use crate::attempt::{Case, agrees};
use crate::rooms::{bounds_part, coefs_part, row_count, rows_part, table_part};
use call::{Call, PROBE, PROPAGATE, PROPAGATE_ROW};
use rest::Rest;
use rest_call::is_probing_fixpoint;
use test_one_call::made::make;
use test_points::models::put_model;
use test_text::seen::Model;

fn propagate_row(row: u32) -> Call {
    Call {
        kind: PROPAGATE_ROW,
        row,
        variable: 0,
        budget: 0,
    }
}

fn propagate(budget: u32) -> Call {
    Call {
        kind: PROPAGATE,
        row: 0,
        variable: 0,
        budget,
    }
}

fn probe(variable: u32, budget: u32) -> Call {
    Call {
        kind: PROBE,
        row: 0,
        variable,
        budget,
    }
}

// The order of a sweep's calls.
#[derive(Clone, Copy)]
pub enum Order {
    Upwards,
    Downwards,
}

// Call i of a sweep of eight. One whose row or variable is not there, or not free, is refused.
fn sweep_call(i: u32, order: Order) -> Call {
    match order {
        Order::Upwards if i < 3 => propagate_row(i),
        Order::Upwards if i == 3 => propagate(1_000),
        Order::Upwards => probe(i - 4, 1_000),
        Order::Downwards if i < 4 => probe(3 - i, 500),
        Order::Downwards if i < 7 => propagate_row(6 - i),
        Order::Downwards => propagate(1),
    }
}

fn sweep(
    n: usize,
    m: usize,
    bounds: &mut [i32],
    coefs: &mut [i32],
    rhs: &mut [i32],
    kinds: &mut [u8],
    table: &mut [u8],
    order: Order,
) {
    for i in 0..8 {
        let _ = make(n, m, bounds, coefs, rhs, kinds, table, sweep_call(i, order));
    }
}

fn rests(n: usize, m: usize, bounds: &[i32], coefs: &[i32], rhs: &[i32], kinds: &[u8]) -> bool {
    let answer = is_probing_fixpoint(n, m, bounds, coefs, rhs, kinds);
    matches!(answer, Ok(Rest::AtRest))
}

// Sweeps until the box is at rest. Each sweep of a box that is not narrows it, and no box here is wider than 12 in all.
fn run_to_rest(
    n: usize,
    m: usize,
    bounds: &mut [i32],
    coefs: &mut [i32],
    rhs: &mut [i32],
    kinds: &mut [u8],
    table: &mut [u8],
    order: Order,
) -> bool {
    for _ in 0..16 {
        if rests(n, m, bounds, coefs, rhs, kinds) {
            return true;
        }
        sweep(n, m, bounds, coefs, rhs, kinds, table, order);
    }
    false
}

// The box that a run from the case's model ends in, where it ends at rest with the points of the start.
fn end<'a>(case: Case<'_>, order: Order, room: &'a mut [i32]) -> Option<&'a [i32]> {
    let mut coef_room = [0i32; 12];
    let mut side_room = [0i32; 3];
    let mut kind_room = [0u8; 3];
    let mut table_room = [0u8; 64];
    let n = case.n;
    let m = row_count(n);
    let bounds = bounds_part(room, n);
    let coefs = coefs_part(&mut coef_room, n);
    let rhs = rows_part(&mut side_room, n);
    let kinds = rows_part(&mut kind_room, n);
    let table = table_part(&mut table_room, n);
    put_model(case.code, bounds, coefs, rhs, kinds);
    if !run_to_rest(n, m, bounds, coefs, rhs, kinds, table, order) {
        return None;
    }
    let end = Model {
        n,
        m,
        bounds,
        coefs,
        rhs,
        kinds,
        table,
    };
    if agrees(end, case.marks, false) {
        Some(bounds)
    } else {
        None
    }
}

// Whether both runs end at rest, in equal boxes and with the points of the start.
pub fn ends_meet(case: Case<'_>) -> bool {
    let mut up = [0i32; 8];
    let mut down = [0i32; 8];
    let Some(highest) = end(case, Order::Upwards, &mut up) else {
        return false;
    };
    end(case, Order::Downwards, &mut down) == Some(highest)
}

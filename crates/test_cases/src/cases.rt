// The cases on standard input. A line changes the model (`buffers`), or asks for something:
//   name NAME                      writes the name
//   model NAME                     the same as a line of its own
//   head NAME                      writes the name with the bounds, and the rows as `reduce` prints them
//   write bounds                   writes the bounds; coefs, rhs, kinds and table likewise;
//                                  matrix, implications: as `reduce` prints them
//   all ROW VARIABLE BUDGET        the six calls, each on its own copy of the model: the answer and the numbers
//                                  that changed
//   1 ROW VARIABLE BUDGET          one of them, by the number of its kind; 6 is the rest call
//   CALL KIND ROW VARIABLE BUDGET  one on the model itself: the record and the answer
//   execute LENGTH X ..            runs the list of as many numbers and writes the four counts
//   DID BYTES LENGTH X ..          the same with as many bytes lent for what the records did, and the bytes
//   FOUR X ..                      the counts of four records, 16 numbers in all
//   PLAN LENGTH X ..               the total width, a budget that is never spent, and of the list of as many
//                                  numbers the passes at most
//   KNOT K J LENGTH P ..           ties variable J to variable K on the model itself, with a tie list of as many
//                                  places: the answer and the list
//   GROW                           the clique rows of the table: their number, and the list of them
//   fixpoint                       writes whether the box is at rest, or what shows that it is not
//   READ                           reads the book into the buffers of the model
//   TRAILER                        reads the sizes from the bytes, a trailer alone
//   LENGTHS                        the lengths that the sizes fix, from the bytes, a trailer alone
//   WRITE                          writes the model into the book
//   BOTH                           the round trip
//   SAME LENGTH X ..               whether the book is these bytes
// A number that a line lacks is 0. Every other line is a comment.
ghost use Rattle.std.specs.Prelude.{◌≤◌, length};

use crate::buffers::Sizes;
use crate::lists::record;
use crate::{buffers, lists};
use rest_call::is_probing_fixpoint;
use std::io::{Read, Stdin, Stdout};
use test_one_call::copies;
use test_one_call::transcript::step;
use test_other_calls::{book_cases, clique_cases, plans, tied};
use test_text::parts::part_mut;
use test_text::seen::Model;
use test_text::words::behind;
use test_text::{print, rows, words};

fn model_name(out: Stdout, line: &[u8]) {
    print::text(out, behind(line, 0));
    print::line(out);
}

fn write(out: Stdout, line: &[u8], model: Model<'_>) {
    match words::second(line) {
        Some(b'b') => print::list(out, b"  bounds", model.bounds),
        Some(b'c') => print::list(out, b"  coefs", model.coefs),
        Some(b'r') => print::list(out, b"  rhs", model.rhs),
        Some(b'k') => print::ones(out, b"  kinds", model.kinds),
        Some(b'm') => rows::rows(out, model.n, model.coefs, model.rhs, model.kinds),
        Some(b'i') => rows::implications(out, model.bounds.len(), model.table),
        _ => print::ones(out, b"  table", model.table),
    }
}

// Whether the box is at rest.
fn fixpoint(out: Stdout, model: Model<'_>) {
    lists::rest(
        out,
        is_probing_fixpoint(
            model.n,
            model.m,
            model.bounds,
            model.coefs,
            model.rhs,
            model.kinds,
        ),
    );
}

// What a line asks of a model that stays as it is.
fn look(out: Stdout, line: &[u8], model: Model<'_>) {
    match line.first() {
        Some(b'n') => print::text(out, behind(line, 0)),
        Some(b'm') => model_name(out, line),
        Some(b'h') => rows::head(out, behind(line, 0), model),
        Some(b'w') => write(out, line, model),
        Some(b'P') => plans::of_list(out, line, model.n, model.bounds),
        Some(b'L') => plans::of_trailer(out, model.table),
        Some(b'G') => clique_cases::of_table(out, model.n, model.table),
        Some(b'f') => fixpoint(out, model),
        Some(b'a') => copies::all(out, model, record(line)),
        Some(b'1'..=b'6') => copies::one(out, model, record(line)),
        _ => {}
    }
}

// What a line asks of the model or the book.
fn answer(
    out: Stdout,
    line: &[u8],
    n: usize,
    m: usize,
    bounds: &mut [i32],
    coefs: &mut [i32],
    rhs: &mut [i32],
    kinds: &mut [u8],
    table: &mut [u8],
) {
    match line.first() {
        Some(b'C') => {
            let call = record(behind(line, 0));
            step(out, n, m, bounds, coefs, rhs, kinds, table, call);
        }
        Some(b'e' | b'D' | b'F') => lists::answer(
            out, line, n, m, bounds, coefs, rhs, kinds, table,
        ),
        Some(b'K') => tied::of_line(out, line, n, m, bounds, coefs, rhs, kinds, table),
        Some(b'R' | b'T' | b'W' | b'B' | b'S') => {
            book_cases::answer(out, line, n, m, bounds, coefs, rhs, kinds, table)
        }
        _ => look(
            out,
            line,
            Model {
                n,
                m,
                bounds,
                coefs,
                rhs,
                kinds,
                table,
            },
        ),
    }
}

// The same of as much of each buffer as the model has.
fn lent(
    out: Stdout,
    line: &[u8],
    sizes: Sizes,
    bounds: &mut [i32],
    coefs: &mut [i32],
    rhs: &mut [i32],
    kinds: &mut [u8],
    table: &mut [u8],
) {
    answer(
        out,
        line,
        sizes.n,
        sizes.m,
        part_mut(bounds, sizes.bounds),
        part_mut(coefs, sizes.coefs),
        part_mut(rhs, sizes.rhs),
        part_mut(kinds, sizes.kinds),
        part_mut(table, sizes.table),
    );
}

// One line: the model as it changes it, and what it asks of that.
fn turn(
    out: Stdout,
    line: &[u8],
    sizes: Sizes,
    bounds: &mut [i32; 256],
    coefs: &mut [i32; 15_360],
    rhs: &mut [i32; 120],
    kinds: &mut [u8; 120],
    table: &mut [u8; 65_536],
) -> Sizes {
    let sizes = buffers::change(line, sizes, bounds, coefs, rhs, kinds, table);
    lent(out, line, sizes, bounds, coefs, rhs, kinds, table);
    sizes
}

// One line after another.
fn each_line(out: Stdout, text: &[u8]) {
    let mut bounds = [0i32; 256];
    let mut coefs = [0i32; 15_360];
    let mut rhs = [0i32; 120];
    let mut kinds = [0u8; 120];
    let mut table = [0u8; 65_536];
    let mut sizes = Sizes::default();
    for line in text.split(|byte| *byte == b'\n') {
        sizes = turn(
            out,
            line,
            sizes,
            &mut bounds,
            &mut coefs,
            &mut rhs,
            &mut kinds,
            &mut table,
        );
    }
}

// Reads until the room is full, the input ends or a read fails, and returns how many bytes there are. A turn goes on by
// what its read gave, and not by 1, so the loop is a while.
fn read_full(input: Stdin, room: &mut [u8]) -> usize
    ensures { result ≤ length room.new }
{
    let mut input = input;
    let mut done = 0;
    while done < room.len() {
        let Ok(n) = input.read(&mut room[done..]) else {
            break;
        };
        if n == 0 {
            break;
        }
        done += n;
    }
    done
}

// Runs the cases on standard input.
pub fn run(rt: HostRuntime) {
    let mut text = [0u8; 65_536];
    let len = read_full(rt.stdin(), &mut text);
    each_line(rt.stdout(), &text[..len]);
}

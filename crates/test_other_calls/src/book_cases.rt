// What a line asks of a book: the bytes in the table's place.
use book::{Sizes, trailer};
use book_reading::read;
use book_writing::write;
use model::refusal::Refusal;
use std::io::Stdout;
use test_text::parts::{part, part_mut};
use test_text::print::{line, number, refused, text};
use test_text::seen::Model;
use test_text::words;

fn sizes(out: Stdout, answer: Result<Sizes, Refusal>) {
    text(out, b":");
    match answer {
        Err(refusal) => refused(out, refusal),
        Ok(Sizes { n, m }) => {
            number(out, n);
            text(out, b" variables,");
            number(out, m);
            text(out, b" rows");
        }
    }
    line(out);
}

fn written(out: Stdout, answer: Result<(), Refusal>) {
    text(out, b":");
    match answer {
        Err(refusal) => refused(out, refusal),
        Ok(()) => text(out, b" written"),
    }
    line(out);
}

fn write_model(model: Model<'_>, book: &mut [u8]) -> Result<(), Refusal> {
    write(
        model.n,
        model.m,
        model.bounds,
        model.coefs,
        model.rhs,
        model.kinds,
        book,
    )
}

fn same(out: Stdout, is_same: bool) {
    if is_same {
        text(out, b": the same");
    } else {
        text(out, b": different");
    }
    line(out);
}

// Whether the book is the bytes of the line.
fn compare(out: Stdout, words: &[u8], book: &[u8]) {
    let mut bytes = [0u8; 64];
    let len = words::number(words, 1);
    words::fill(words::behind(words, 1), part_mut(&mut bytes, len));
    same(out, book == part(&bytes, len));
}

fn compare_numbers(out: Stdout, word: &[u8], a: &[i32], b: &[i32]) {
    text(out, word);
    same(out, a == b);
}

fn write_again(out: Stdout, model: Model<'_>, book: &[u8]) {
    let mut room = [0u8; 62_960];
    let again = part_mut(&mut room, book.len());
    let _ = write_model(model, again);
    text(out, b"round trip, bytes");
    same(out, book == &*again);
}

// The kinds' room is not 0: reading makes it so.
fn read_back(out: Stdout, model: Model<'_>, book: &[u8]) {
    let mut bounds_room = [0i32; 256];
    let mut coefs_room = [0i32; 15_360];
    let mut rhs_room = [0i32; 120];
    let mut kinds_room = [1u8; 120];
    let bounds = part_mut(&mut bounds_room, model.bounds.len());
    let coefs = part_mut(&mut coefs_room, model.coefs.len());
    let rhs = part_mut(&mut rhs_room, model.rhs.len());
    let kinds = part_mut(&mut kinds_room, model.rhs.len());
    text(out, b"round trip, read");
    sizes(out, read(book, bounds, coefs, rhs, kinds));
    compare_numbers(out, b"round trip, bounds", model.bounds, bounds);
    compare_numbers(out, b"round trip, coefficients", model.coefs, coefs);
    compare_numbers(out, b"round trip, right sides", model.rhs, rhs);
    let back = Model {
        bounds,
        coefs,
        rhs,
        kinds,
        ..model
    };
    write_again(out, back, book);
}

// The round trip: a model is written, the book is read into other buffers, and what was read is written again.
fn round_trip(out: Stdout, model: Model<'_>, book: &mut [u8]) {
    text(out, b"round trip, written");
    written(out, write_model(model, book));
    read_back(out, model, book);
}

pub fn answer(
    out: Stdout,
    words: &[u8],
    n: usize,
    m: usize,
    bounds: &mut [i32],
    coefs: &mut [i32],
    rhs: &mut [i32],
    kinds: &mut [u8],
    book: &mut [u8],
) {
    match words.first() {
        Some(b'R') => sizes(out, read(book, bounds, coefs, rhs, kinds)),
        Some(b'T') => sizes(out, trailer(book)),
        Some(b'W') => written(out, write(n, m, bounds, coefs, rhs, kinds, book)),
        Some(b'B') => {
            let model = Model {
                n,
                m,
                bounds,
                coefs,
                rhs,
                kinds,
                table: &[],
            };
            round_trip(out, model, book);
        }
        _ => compare(out, words, book),
    }
}

// What a book and a list of calls will take, told beforehand, in words.
use model::refusal::Refusal;
use plan::{BoxBudget, BufferLengths, PassLimit, width};
use plan_lengths::lengths;
use plan_passes::passes;
use std::io::Stdout;
use test_text::parts::{part, part_mut};
use test_text::print::{item, line, number, refused, text};
use test_text::words::{self, behind, fill};

fn model_lengths(out: Stdout, l: BufferLengths) {
    number(out, l.bounds);
    number(out, l.coefs);
    number(out, l.rhs);
    number(out, l.kinds);
    number(out, l.table);
}

fn other_lengths(out: Stdout, l: BufferLengths) {
    number(out, l.ties);
    number(out, l.clique_coefs);
    number(out, l.clique_rhs);
    number(out, l.book);
}

// The lengths of the buffers that n and m fix, from the bytes, a trailer alone.
pub fn of_trailer(out: Stdout, bytes: &[u8]) {
    text(out, b":");
    match lengths(bytes) {
        Err(refusal) => refused(out, refusal),
        Ok(l) => {
            number(out, l.n);
            number(out, l.m);
            model_lengths(out, l);
            other_lengths(out, l);
        }
    }
    line(out);
}

fn told(out: Stdout, answer: Result<BoxBudget, Refusal>) {
    match answer {
        Err(refusal) => refused(out, refusal),
        Ok(BoxBudget { width, budget }) => {
            item(out, b" width", width);
            item(out, b" budget", budget);
        }
    }
}

fn at_most(out: Stdout, answer: Result<PassLimit, Refusal>) {
    match answer {
        Err(refusal) => refused(out, refusal),
        Ok(limit) => item(out, b" passes", limit.passes),
    }
}

// The total width of the bounds and a budget that is never spent; of the list of numbers the passes at most.
pub fn of_list(out: Stdout, words: &[u8], n: usize, bounds: &[i32]) {
    let mut calls = [0u32; 64];
    let len = words::number(words, 1);
    fill(behind(words, 1), part_mut(&mut calls, len));
    text(out, b":");
    told(out, width(n, bounds));
    at_most(out, passes(n, bounds, part(&calls, len)));
    line(out);
}

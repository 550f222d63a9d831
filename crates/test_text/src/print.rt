// Words and numbers on standard output. Nothing stops at a write that fails: what is not written shows in the output.
use model::refusal::Refusal;
use std::fmt::Display;
use std::io::Stdout;

pub fn text(out: Stdout, s: &[u8]) {
    let _ = out.write_all(s);
}

pub fn line(out: Stdout) {
    text(out, b"\n");
}

// A number behind a space.
pub fn number<T: Display + Drop>(out: Stdout, x: T) {
    let _ = print!(out; " {x}");
}

// A number behind a word.
pub fn item<T: Display + Drop>(out: Stdout, word: &[u8], x: T) {
    text(out, word);
    number(out, x);
}

// The check that a call fails, by its number.
pub fn refused(out: Stdout, refusal: Refusal) {
    item(out, b" refused", refusal.number());
}

// The numbers of a list.
pub fn numbers<T: Display + Copy>(out: Stdout, xs: &[T]) {
    for x in xs {
        number(out, *x);
    }
}

// The same as a line, behind a word.
pub fn list<T: Display + Copy>(out: Stdout, word: &[u8], xs: &[T]) {
    text(out, word);
    numbers(out, xs);
    line(out);
}

// The places of the bytes that are not 0, behind a word.
pub fn ones(out: Stdout, word: &[u8], xs: &[u8]) {
    text(out, word);
    for (i, x) in xs.iter().enumerate() {
        if *x != 0 {
            number(out, i);
        }
    }
    line(out);
}

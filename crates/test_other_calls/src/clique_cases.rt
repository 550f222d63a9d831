// The clique rows of a table, in words. The list has room for the rows of at most eight variables; more are refused.
use clique_call::call::cliques;
use model::refusal::Refusal;
use std::io::Stdout;
use test_text::parts::part_mut;
use test_text::print::{line, list, number, refused, text};
use test_text::rows::rows;

// Their number and the list whole: what the call does not use of it is 0. A refusal leaves what it held.
fn told(out: Stdout, answer: Result<usize, Refusal>, n: usize, coefs: &[i32], rhs: &[i32]) {
    text(out, b" cliques");
    match answer {
        Err(refusal) => {
            refused(out, refusal);
            list(out, b", rhs", rhs);
        }
        Ok(count) => {
            number(out, count);
            line(out);
            rows(out, n, coefs, rhs, &[]);
        }
    }
}

pub fn of_table(out: Stdout, n: usize, table: &[u8]) {
    let mut all_coefs = [7i32; 128];
    let mut all_rhs = [7i32; 16];
    let few = n.min(8);
    let coefs = part_mut(&mut all_coefs, 2 * few * few);
    let rhs = part_mut(&mut all_rhs, 2 * few);
    let answer = cliques(n, table, coefs, rhs);
    told(out, answer, n, coefs, rhs);
}

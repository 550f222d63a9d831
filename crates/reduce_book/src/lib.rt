// The programs `reduce`, `reduce8` and `floor` (01, "Book"; 02, C-20 and C-23): a book is read on standard input,
// rounds are made up to a limit, and `refused N`, `none` or what is left of the model, as a report or as pages, is
// printed. What is printed for an input is `output_as` of it. No contract can say which bytes are read or written; that
// the input is kept as it came, that the answer is the one that `output_as` gives, that its text is written into a
// buffer and that as many bytes as it has are handed to standard output are proved. A read or a write that fails is
// told on standard error, and then nothing more is printed; the code has no other way to end without its text.
#![tactic(auto)]

ghost use Rattle.std.specs.Prelude.{◌≡◌, List, ℕ, ◌≤◌, OnOk, length};
ghost use Rattle.model.specs.Limits.{max_rows, max_variables};
ghost use Rattle.model.specs.Rows.{rows_of};
ghost use Rattle.model.specs.State.{state_of};
ghost use Rattle.intake.specs.Checks.{max_book};
ghost use Rattle.intake.specs.Intake.{Held};
ghost use Rattle.reduction.specs.Answers.{Ready, Sized};
ghost use Rattle.reduction.specs.Output.{output_as as printed_text};
ghost use Rattle.reduce_book.specs.Printed.{Printed};

use reduction::buffers::{
    largest_table, longest_book, most_bounds, most_coefs, most_kinds, most_rhs,
};
use reduction::{Form, solve};
use std::io;
use streams::input::read_all;
use streams::output::refused;

// The whole program, with at most `limit` rounds; `reduce` and `floor` have the limit that is none, `reduce8` has 8.
// Ok where the whole text was printed.
pub fn program(
    rt: &(impl io::Input + Print + Eprint),
    form: Form,
    limit: u64,
    printed: &mut usize,
) -> io::Result<()>
    requires { printed.old ≡ 0 }
    ensures { OnOk result (Printed form limit printed.new) }
{
    let mut start = longest_book();
    let mut tail = [0u8; 16];
    match read_all(rt, &mut start, &mut tail)? {
        Ok(len) => answer(rt, &start, &tail, len, form, limit, printed),
        Err(refusal) => refused(rt, refusal.number(), printed),
    }
}

// The answer to an input of `len` bytes that ends in `tail`; where it is no longer than `start`, `start`
// begins with it. A refusal of `sizes` is the one of its text (`head-output`). Ok where the whole text was
// printed.
fn answer(
    rt: &(impl Print + Eprint),
    start: &[u8],
    tail: &[u8],
    len: usize,
    form: Form,
    limit: u64,
    printed: &mut usize,
) -> io::Result<()>
    requires max_book_in_bounds { (max_book ≤ length start.now) × ((bs : List ℕ) × Held bs start.now tail.now len) }
    requires printed_value { printed.old ≡ 0 }
    ensures { (bs : List ℕ) → Held bs start.now tail.now len →
        OnOk result (printed.new ≡ length (printed_text form limit bs)) }
{
    match intake::sizes(tail, len) {
        Err(refusal) => refused(rt, refusal.number(), printed),
        Ok(sizes) => reduce(rt, sizes.n, sizes.m, &start[..len], form, limit, printed),
    }
}

// Lends the reduction buffers for the model, and a table all 0.
fn reduce(
    rt: &(impl Print + Eprint),
    n: usize,
    m: usize,
    book: &[u8],
    form: Form,
    limit: u64,
    printed: &mut usize,
) -> io::Result<()>
    requires n_le_max_variables { (n ≤ max_variables) × (m ≤ max_rows) × Sized n m book.now }
    requires printed_value { printed.old ≡ 0 }
    ensures { OnOk result (printed.new ≡ length (printed_text form limit book.now)) }
{
    let mut bounds = most_bounds();
    let mut coefs = most_coefs();
    let mut rhs = most_rhs();
    let mut kinds = most_kinds();
    let mut table = largest_table();
    let bounds_len = 2 * n;
    let coefs_len = m * n;
    let table_len = 4 * (n * n);
    reduce_in(
        rt,
        n,
        m,
        book,
        &mut bounds[..bounds_len],
        &mut coefs[..coefs_len],
        &mut rhs[..m],
        &mut kinds[..m],
        &mut table[..table_len],
        form,
        limit,
        printed,
    )
}

fn reduce_in(
    rt: &(impl Print + Eprint),
    n: usize,
    m: usize,
    book: &[u8],
    bounds: &mut [i32],
    coefs: &mut [i32],
    rhs: &mut [i32],
    kinds: &mut [u8],
    table: &mut [u8],
    form: Form,
    limit: u64,
    printed: &mut usize,
) -> io::Result<()>
    requires fact { let s = state_of n m bounds.old (rows_of coefs.old rhs.old kinds.old) table.old in
        Ready book.now s }
    requires printed_value { printed.old ≡ 0 }
    ensures { OnOk result (printed.new ≡ length (printed_text form limit book.now)) }
{
    match solve(n, m, book, bounds, coefs, rhs, kinds, table, limit) {
        Err(refusal) => refused(rt, refusal.number(), printed),
        Ok(None) => printing::none(rt, printed),
        Ok(Some(made)) => printing::left(rt, form, n, m, made, bounds, coefs, rhs, table, printed),
    }
}

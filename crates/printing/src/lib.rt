// What is left of a book's model, or `none`, on standard output, in few writes: as a report, or as pages. `printed`
// counts the bytes that were written: so a contract can say that an answer's text is printed once, and whole. No kind
// is printed (`left-kindless`), so none is lent: the states here have rows without kinds.
#![tactic(auto)]

ghost use Rattle.std.specs.Prelude.{[], ◌≡◌, ◌*◌, OnOk, length};
ghost use Rattle.model.specs.Rows.{rows_of};
ghost use Rattle.model.specs.State.{state_of};
ghost use Rattle.pages.specs.Page.{Paper, pages};
ghost use Rattle.report.specs.Report.{Printable, none_line, report};
ghost use Rattle.reduction.specs.Output.{left_text};

use page_call::{PAGE, pages_needed, write_all};
use reduction::Form;
use report_chunk::{fill, line_count};
use report_line::write_none;
use std::io;
use streams::output::print;

// As many bytes of a report are printed at a time.
const CHUNK: usize = 65_536;

pub fn none(rt: &(impl Print + Eprint), printed: &mut usize) -> io::Result<()>
    requires { printed.old ≡ 0 }
    ensures { OnOk result (printed.new ≡ length none_line) }
{
    let mut buf = [0u8; 64];
    let end = write_none(&mut buf, 0);
    print(rt, &buf[..end], printed)
}

// The report, as many lines at a time as the buffer holds.
fn reduced(
    rt: &(impl Print + Eprint),
    n: usize,
    m: usize,
    rounds: u64,
    bounds: &[i32],
    coefs: &[i32],
    rhs: &[i32],
    table: &[u8],
    printed: &mut usize,
) -> io::Result<()>
    requires fact { let s = state_of n m bounds.now (rows_of coefs.now rhs.now []) table.now in
        Printable s }
    requires printed_value { printed.old ≡ 0 }
    ensures { let A = rows_of coefs.now rhs.now [] in
        let s = state_of n m bounds.now A table.now in
        OnOk result (printed.new ≡ length (report rounds s)) }
{
    let count = line_count(n, m);
    let mut buf = [0u8; CHUNK];
    let mut next = 0;
    // Each chunk says where the next begins.
    while next < count {
        let chunk = fill(n, m, rounds, bounds, coefs, rhs, table, next, &mut buf);
        let end = chunk.end;
        print(rt, &buf[..end], printed)?;
        next = chunk.next;
    }
    Ok(())
}

// The buffer of the most pages; a caller learns its length.
fn most_pages() -> [u8; 340200]
    ensures { 340_200 ≡ length result }
{
    [0; 340200]
}

// The pages, all at once. The model that is left is valid, so that nothing can be refused.
fn paper(
    rt: &(impl Print + Eprint),
    n: usize,
    bounds: &[i32],
    table: &[u8],
    printed: &mut usize,
) -> io::Result<()>
    requires paper { Paper n bounds.now × (length table.now ≡ 4 * (n * n)) }
    requires printed_value { printed.old ≡ 0 }
    ensures { let text = pages n bounds.now table.now in
        OnOk result (printed.new ≡ length text) }
{
    let mut buf = most_pages();
    let len = pages_needed(n, table) * PAGE;
    write_all(n, bounds, table, &mut buf[..len]);
    print(rt, &buf[..len], printed)
}

// What is left, in the form that the program has.
pub fn left(
    rt: &(impl Print + Eprint),
    form: Form,
    n: usize,
    m: usize,
    rounds: u64,
    bounds: &[i32],
    coefs: &[i32],
    rhs: &[i32],
    table: &[u8],
    printed: &mut usize,
) -> io::Result<()>
    requires fact { let s = state_of n m bounds.now (rows_of coefs.now rhs.now []) table.now in
        Printable s × Paper n bounds.now }
    requires printed_value { printed.old ≡ 0 }
    ensures { let A = rows_of coefs.now rhs.now [] in
        let s = state_of n m bounds.now A table.now in
        OnOk result (printed.new ≡ length (left_text form rounds s)) }
{
    match form {
        Form::Report => reduced(rt, n, m, rounds, bounds, coefs, rhs, table, printed),
        Form::Paper => paper(rt, n, bounds, table, printed),
    }
}

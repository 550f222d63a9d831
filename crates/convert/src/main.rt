// The program `convert` (02, C-18, "Converting goes both ways"): reads a book of either edition on standard input and
// writes the book of the other edition on standard output, or prints `refused N`. What it writes for an input is
// `output` of it. No contract can say which bytes are read or written; that the input is kept as it came, that the
// bytes in the buffer are those that `output` gives, and that all of them are handed to standard output are proved. A
// read or a write that fails is told on standard error, and then nothing more is written.
#![tactic(auto)]

mod buffers;
mod conversion;

ghost use Rattle.std.specs.Prelude.{◌≡◌, ◌⊎◌, List, ℕ, OnOk, length};
ghost use Rattle.intake.specs.Intake.{Held};
ghost use Rattle.report.specs.Report.{refused_line};
ghost use Rattle.convert.specs.Output.{max_sparse, output};

use buffers::longest_sparse;
use conversion::convert;
use std::io;
use streams::input::read_all;
use streams::output::{print, refused};

fn main(rt: HostRuntime) {
    let mut printed = 0;
    // A failure is told on standard error already.
    let _ = write_converted(&rt, &mut printed);
}

// Ok where the answer to some input was written, or the line of one that is not read to its end.
fn write_converted(rt: &(impl io::Input + Print + Eprint), printed: &mut usize) -> io::Result<()>
    requires { printed.old ≡ 0 }
    ensures { OnOk result (((bs : List ℕ) × (printed.new ≡ length (output bs)))
        ⊎ (printed.new ≡ length (refused_line 2))) }
{
    let mut start = longest_sparse();
    let mut tail = [0u8; 16];
    match read_all(rt, &mut start, &mut tail)? {
        Ok(len) => answer(rt, &start, &tail, len, printed),
        Err(refusal) => refused(rt, refusal.number(), printed),
    }
}

// The answer to an input of `len` bytes that ends in `tail`; where it is no longer than `start`, `start` begins with
// it. Ok where all of it was written.
fn answer(
    rt: &(impl Print + Eprint),
    start: &[u8],
    tail: &[u8],
    len: usize,
    printed: &mut usize,
) -> io::Result<()>
    requires max_sparse_value { (max_sparse ≡ length start.now) × ((bs : List ℕ) × Held bs start.now tail.now len) }
    requires printed_value { printed.old ≡ 0 }
    ensures { (bs : List ℕ) → Held bs start.now tail.now len →
        OnOk result (printed.new ≡ length (output bs)) }
{
    let mut to = longest_sparse();
    match convert(start, tail, len, &mut to) {
        Err(refusal) => refused(rt, refusal.number(), printed),
        Ok(end) => print(rt, &to[..end], printed),
    }
}

// The program `allocations` (02, C-21, "Members send up to 64 proposed allocations against a book"): reads a book, a
// count and so many proposals on standard input, and prints for each one `inside`, `variable J` or `row I`, or for all
// `refused N`. What it prints for an input is `output` of it. No contract can say which bytes are read or written; that
// the input is kept as it came, that the verdicts are those that each proposal alone would get, and that all lines are
// handed to standard output are proved. A read or a write that fails is told on standard error.
#![tactic(auto)]

mod buffers;

ghost use Rattle.std.specs.Prelude.{◌≡◌, ◌⊎◌, List, ℕ, ◌*◌, ◌≤◌, OnOk, length};
ghost use Rattle.intake.specs.Intake.{Held};
ghost use Rattle.proposals.specs.Proposals.{numbers};
ghost use Rattle.proposals.specs.Verdict.{Verdict};
ghost use Rattle.report.specs.Report.{refused_line};
ghost use Rattle.text.specs.Text.{texts};
ghost use Rattle.allocation_input.specs.Input.{max_input};
ghost use Rattle.allocation_input.specs.Output.{output, verdict_line};

use allocation_judging::judge;
use allocation_lines::write_verdicts;
use buffers::{MAX_INPUT, longest_input};
use model::refusal::Refusal;
use std::io;
use streams::input::read_all;
use streams::output::{print, refused};

fn main(rt: HostRuntime) {
    let mut printed = 0;
    // A failure is told on standard error already.
    let _ = print_allocations(&rt, &mut printed);
}

// Ok where the answer to some input was written, or the line of one that is not read to its end.
fn print_allocations(rt: &(impl io::Input + Print + Eprint), printed: &mut usize) -> io::Result<()>
    requires { printed.old ≡ 0 }
    ensures { OnOk result (((bs : List ℕ) × (printed.new ≡ length (output bs)))
        ⊎ (printed.new ≡ length (refused_line 2))) }
{
    let mut start = longest_input();
    let mut tail = [0u8; 16];
    match read_all(rt, &mut start, &mut tail)? {
        Ok(len) => answer(rt, &start, &tail, len, printed),
        Err(refusal) => refused(rt, refusal.number(), printed),
    }
}

// The lines of `count` proposals. Ok where all of them were written.
fn print_verdicts(
    rt: &(impl Print + Eprint),
    verdicts: &[u32],
    count: usize,
    printed: &mut usize,
) -> io::Result<()>
    requires count_bound { (count ≤ 64) × (printed.old ≡ 0) }
    requires verdicts_len { length verdicts.now ≡ 2 * count }
    ensures { (f : ℕ → Verdict) → verdicts.now ≡ numbers count f →
        OnOk result (printed.new ≡ length (texts count (λ c. verdict_line (f c)))) }
{
    let mut buf = [0u8; 1_344];
    let end = write_verdicts(verdicts, count, &mut buf);
    print(rt, &buf[..end], printed)
}

// The answer to an input of `len` bytes; where it is no longer than `start`, `start` begins with it. Ok where all of it
// was written.
#[tactic(auto, using(crate::proofs::LongInput::long_input))]
fn answer(
    rt: &(impl Print + Eprint),
    start: &[u8],
    tail: &[u8],
    len: usize,
    printed: &mut usize,
) -> io::Result<()>
    requires max_input_value { (max_input ≡ length start.now) × ((bs : List ℕ) × Held bs start.now tail.now len) }
    requires printed_value { printed.old ≡ 0 }
    ensures { (bs : List ℕ) → Held bs start.now tail.now len →
        OnOk result (printed.new ≡ length (output bs)) }
{
    if MAX_INPUT < len {
        return refused(rt, Refusal::BookLength.number(), printed);
    }
    let mut verdicts = [0u32; 128];
    match judge(&start[..len], &mut verdicts) {
        Err(refusal) => refused(rt, refusal.number(), printed),
        Ok(count) => print_verdicts(rt, &verdicts[..2 * count], count, printed),
    }
}

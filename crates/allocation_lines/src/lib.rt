// The line that `allocations` prints for each proposal: `inside`, `variable J` or `row I`.
#![tactic(auto)]

ghost use Rattle.std.specs.Prelude.{◌++◌, ◌≡◌, ℕ, ◌*◌, ◌+◌, ◌≤◌, pos, length};
ghost use Rattle.proposals.specs.Proposals.{case_of, number_of, numbers};
ghost use Rattle.proposals.specs.Verdict.{Verdict};
ghost use Rattle.report.specs.Report.{newline};
ghost use Rattle.text.specs.Fields.{field};
ghost use Rattle.text.specs.Text.{Wrote, texts};
ghost use Rattle.allocation_input.specs.Output.{max_verdict_line, verdict_line};

use text::number::{write_byte, write_natural, write_text};

// A word and a number: variable J; row I
fn write_numbered(word: &[u8], number: u32, buf: &mut [u8], at: usize) -> usize
    requires { (length word.now ≤ 8) × (at + max_verdict_line ≤ length buf.old) }
    ensures text { Wrote buf.old at (word.now ++ field (pos number) ++ newline) result buf.new }
    ensures room { result ≤ at + max_verdict_line }
{
    let start = write_text(word, buf, at);
    let end = write_natural(number, buf, start);
    write_byte(b'\n', buf, end)
}

// The line of a verdict that is told in the two numbers that C has.
fn write_verdict(case: u32, number: u32, buf: &mut [u8], at: usize) -> usize
    requires { at + max_verdict_line ≤ length buf.old }
    ensures text { (v : Verdict) → case ≡ case_of v → number ≡ number_of v →
        Wrote buf.old at (verdict_line v) result buf.new }
    ensures room { result ≤ at + max_verdict_line }
{
    if case == 0 {
        let end = write_text(b"inside", buf, at);
        return write_byte(b'\n', buf, end);
    }
    if case == 1 {
        return write_numbered(b"variable", number, buf, at);
    }
    write_numbered(b"row", number, buf, at)
}

// A line for each of `count` proposals, at the start of the buffer.
pub fn write_verdicts(verdicts: &[u32], count: usize, buf: &mut [u8]) -> usize
    requires count_bound { (count ≤ 64) × (count * max_verdict_line ≤ length buf.old) }
    requires verdicts_len { length verdicts.now ≡ 2 * count }
    ensures text { (f : ℕ → Verdict) → verdicts.now ≡ numbers count f →
        Wrote buf.old 0 (texts count (λ c. verdict_line (f c))) result buf.new }
    ensures room { result ≤ count * max_verdict_line }
{
    let mut end = 0;
    for c in 0..count {
        end = write_verdict(verdicts[2 * c], verdicts[2 * c + 1], buf, end);
    }
    end
}

// What a call says, and how it is written into the answer's places.
ghost use Rattle.std.specs.Prelude.{◌≡◌, ◌+◌, ◌<◌, length, replicate, set};
ghost use Rattle.model.specs.Checks.{size_checks};
ghost use Rattle.replies.specs.Replies.{answer_length, bit as bit_of, reply_of, returned, written, wrong_length};

use model::refusal::Refusal;
use model_checks::check_size;
use two_sides::Side;

// The length of every answer buffer.
pub const ANSWER: usize = 12;

// The number of the failed check; or the first four numbers of the answer; or a probe's case, its value or new bytes,
// and its sides. The other places are 0.
#[derive(Clone, Copy)]
pub enum Reply {
    Refused(u32),
    Numbers(u64, u64, u64, u64),
    Probed(u64, u32, Side, Side),
}

// The number by which a call on a model refuses an answer buffer of a wrong length: 3, else 5.
pub fn answer_fault(n: usize, m: usize) -> u32
    ensures { result ≡ wrong_length (size_checks n m) }
{
    match check_size(n, m) {
        Err(size) => size.number(),
        Ok(()) => Refusal::BufferLength.number(),
    }
}

// Sets every place to 0.
pub fn clear(answer: &mut [u64])
    ensures { answer.new ≡ replicate (length answer.old) 0 }
{
    answer.fill(0)
}

pub fn bit(b: bool) -> u64
    ensures { result ≡ bit_of b }
{
    b as u64
}

// A side's passes, whether it spent its budget, and the bounds that it moved, from place `at` on.
fn put_side(side: Side, at: usize, answer: &mut [u64])
    requires { at + 2 < length answer.old }
    ensures { let A = answer.old in
        answer.new
        ≡ set (set (set A at side.passes) (at + 1) (bit_of side.spent)) (at + 2) side.moved }
{
    answer[at] = side.passes as u64;
    answer[at + 1] = bit(side.spent);
    answer[at + 2] = side.moved as u64;
}

// Writes a reply: its number is returned, its numbers go into the answer, and a refusal leaves the answer as it is.
pub fn put(reply: Reply, answer: &mut [u64]) -> u32
    requires { length answer.old ≡ answer_length }
    ensures number { result ≡ returned (reply_of reply) }
    ensures answer { answer.new ≡ written (reply_of reply) answer.old }
{
    match reply {
        Reply::Refused(number) => number,
        Reply::Numbers(a, b, c, d) => {
            clear(answer);
            answer[0] = a;
            answer[1] = b;
            answer[2] = c;
            answer[3] = d;
            0
        }
        Reply::Probed(case, value, side0, side1) => {
            clear(answer);
            answer[0] = case;
            answer[1] = value as u64;
            put_side(side0, 2, answer);
            put_side(side1, 5, answer);
            0
        }
    }
}

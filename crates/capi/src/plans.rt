// The calls that tell size and passes beforehand. They write nothing but the answer.
ghost use Rattle.std.specs.Prelude.{◌≡◌};
ghost use Rattle.exports.specs.Exports.{book_exported, lengths_export, passes_export, width_export};

use book_replies::books::trailer_fault;
use plan::width;
use plan_lengths::lengths;
use plan_passes::passes;
use plan_replies::{passes_reply, put_plan, width_reply};
use replies::reply::{ANSWER, answer_fault, put};

// The length of each buffer that the n and m of 16 trailer bytes fix: {n, m, bounds, coefs, rhs, kinds, table, ties,
// clique_coefs, clique_rhs, book}. Refused by 1, 5, 3, 4, in this order.
#[unsafe(no_mangle)]
pub extern "C" fn astrolabe_plan_lengths(bytes: &[u8], answer: &mut [u64]) -> u32
    ensures { book_exported result answer.new ≡ lengths_export answer.old bytes.now }
{
    if answer.len() != ANSWER {
        return trailer_fault(bytes);
    }
    put_plan(lengths(bytes), answer)
}

// The total width of the bounds, and a budget that is never spent: {width, budget}. Refused by 3, 5, 6, 7, 23.
#[unsafe(no_mangle)]
pub extern "C" fn astrolabe_plan_width(n: usize, bounds: &[i32], answer: &mut [u64]) -> u32
    ensures { book_exported result answer.new ≡ width_export answer.old n bounds.now }
{
    if answer.len() != ANSWER {
        return answer_fault(n, 0);
    }
    put(width_reply(width(n, bounds)), answer)
}

// The same, and an upper limit on the passes that a list makes: {width, budget, passes}. Refused by 3, 5, 6, 7, 23.
#[unsafe(no_mangle)]
pub extern "C" fn astrolabe_plan_run(
    n: usize,
    bounds: &[i32],
    calls: &[u32],
    answer: &mut [u64],
) -> u32
    ensures { let export = passes_export answer.old n bounds.now calls.now in
        book_exported result answer.new ≡ export }
{
    if answer.len() != ANSWER {
        return answer_fault(n, 0);
    }
    put(passes_reply(passes(n, bounds, calls)), answer)
}

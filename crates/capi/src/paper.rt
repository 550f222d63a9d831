// The calls on the pages for the floor.
ghost use Rattle.std.specs.Prelude.{◌≡◌, length};
ghost use Rattle.page_call.specs.Answers.{pages_after, pages_call};
ghost use Rattle.replies.specs.PageReplies.{page_reply};
ghost use Rattle.replies.specs.Replies.{returned};
ghost use Rattle.exports.specs.Exports.{book_exported};
ghost use Rattle.exports.specs.PageExports.{count_export};

use page_call::{page_count, write_pages};
use replies::paper::{count_reply, pages_number};
use replies::reply::{ANSWER, answer_fault, put};

// The number of pages of a table: {pages}. Refused by 3, 5, 10.
#[unsafe(no_mangle)]
pub extern "C" fn astrolabe_page_count(n: usize, table: &[u8], answer: &mut [u64]) -> u32
    ensures { book_exported result answer.new ≡ count_export answer.old n table.now }
{
    if answer.len() != ANSWER {
        return answer_fault(n, 0);
    }
    put(count_reply(page_count(n, table)), answer)
}

// Writes the pages, 4,860 bytes each; the number says all. Refused by 3, 5, 6, 7, 23, 10.
#[unsafe(no_mangle)]
pub extern "C" fn astrolabe_write_pages(
    n: usize,
    bounds: &[i32],
    table: &[u8],
    pages: &mut [u8],
) -> u32
    ensures number { let room = length pages.old in
        result ≡ returned (page_reply (pages_call n bounds.now table.now room)) }
    ensures pages_written { let after = pages_after n bounds.now table.now pages.old in
        pages.new ≡ after }
{
    pages_number(write_pages(n, bounds, table, pages))
}

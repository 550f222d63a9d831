// The pages for the floor (02, C-23), written into a lent buffer. `page_count` tells how many they are, `write_pages`
// writes them; both are open: they require nothing, refuse by the first check that fails, and then write
// nothing. `pages_needed` and `write_all` do the same for one whose state is valid, with nothing checked and nothing
// refused. What the pages are is `pages` of crate `pages`, and what is read from them its theorem `floor-pages`.
#![tactic(auto)]

mod count;
pub mod open;
mod sheet;

pub use count::pages_needed;
pub use open::{PAGE, page_count, write_pages};
pub use sheet::write_all;

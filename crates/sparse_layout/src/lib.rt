// The sparse book (02, C-18), in bytes: the same bounds and the same trailer as the first edition, and between them
// rows of different lengths, each its right side, its kind, its count and an entry for each coefficient that is not 0.
// No code stands here: `sparse_checks` checks the layout, crate `sparse_reading` has the other checks of a book and its
// numbers, `sparse_writing` the bytes of rows. What is open to users stands in crates `sparse` and `sparse_conversion`.
#![tactic(auto)]

// The pages of a reduced model for the floor (02, C-23), by definition: what they are, how they are read back, and that
// reading them gives back the bounds and the implications. No code stands here: crate `page_call` writes them.
#![tactic(auto)]

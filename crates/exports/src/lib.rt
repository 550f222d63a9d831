// The calls of the C interface, by definition: what each returns and leaves, as the open call of its name behind one
// check more, of the answer's length. No code stands here: `capi` has the calls.
#![tactic(auto)]

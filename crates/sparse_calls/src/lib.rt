// The calls on sparse books (02, C-18), defined: which checks each makes, what it answers and what it leaves in the
// buffers that it is lent, and what the checks of the conversions come to. No code stands here: the calls are
// made in `sparse` and `sparse_conversion`.
#![tactic(auto)]

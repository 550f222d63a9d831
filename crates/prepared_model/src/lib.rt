// No code: what a prepared model is in its workspace, which row moved which bound last, and what the prepared calls
// keep of the box that they leave.
#![tactic(auto)]

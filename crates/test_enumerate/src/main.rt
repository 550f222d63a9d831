// Small models, enumerated: after each open call, and after the rounds of `reduce`, the integer points are those of
// before, infeasible is said only where there is none, every recorded implication holds at each, and the number of
// bounds moved agrees with those that differ; two runs that part with the same rows and end at rest end in equal boxes.
// Rows are ≤ rows, and in families of their own also = rows (02, C-14).
// Crate `test_points` has the models and their points; `rooms` is the room for a model, `attempt` one call on it,
// `runs` two runs, `moved` what the counts are held against, and `lies` mistakes to be found. Proved is only that all
// this is safe and ends.
#![tactic(auto)]

mod attempt;
mod family;
mod lies;
mod moved;
mod rooms;
mod runs;

fn main(rt: HostRuntime) {
    let out = rt.stdout();
    family::families(out);
    family::lies(out);
}

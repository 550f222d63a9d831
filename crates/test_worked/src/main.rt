// The worked books of 01 and the examples of 000 in whole variables, through the open calls. They are in `stdin`;
// docs/WORKED.md compares each line of the output with the papers.
#![tactic(auto)]

fn main(rt: HostRuntime) {
    test_cases::run(rt);
}

// The book's cases: 01's example and each way to be malformed, at its boundary; books written, and lent buffers of
// every wrong length; and the round trips of small books and of the largest. They are in `stdin`.
#![tactic(auto)]

fn main(rt: HostRuntime) {
    test_cases::run(rt);
}

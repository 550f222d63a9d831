// Drives every open call on a model through each of its answers and each refusal that can apply to it, at the
// boundaries; then call lists, as records and as numbers. The cases are in `stdin`.
#![tactic(auto)]

fn main(rt: HostRuntime) {
    test_cases::run(rt);
}

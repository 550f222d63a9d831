// What the user is promised of the calls: demands 1, 2 and 3, of direct calls and of lists; passes told beforehand; the
// measure by which rounds end; solvers that agree. No code stands here: specs/ has the claims, and proofs/ the proofs.
#![tactic(auto)]

// Tied variables (02, C-19), by definition, and what follows of it. No code stands here: specs/ has the definitions and
// the claims, proofs/ the proofs.
#![tactic(auto)]

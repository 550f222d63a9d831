// Clique rows (02, C-12; 000, 2.2.2), by definition, and what follows of it. No code stands here: specs/ has the
// definitions and the claims, proofs/ the proofs.
#![tactic(auto)]

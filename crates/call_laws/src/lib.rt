// What follows of every call by its definition: what an accepted one knows, keeps and counts as, and where propagation
// and probing end. No code stands here: specs/ has the words for it (fixpoints, points) and what is claimed of endings.
#![tactic(auto)]

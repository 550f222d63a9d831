// What a proposed allocation gets against a model (02, C-21), by definition, and what follows of it. No code stands
// here: crate `verdicts` finds the verdicts of many proposals at once, and `Telling` says what stands while it does.
#![tactic(auto)]

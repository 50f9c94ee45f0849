// The mathematics that the other crates rest on, stated and proved once: see specs/ for the definitions and
// proofs/ for the laws. It has no code.
#![tactic(auto)]

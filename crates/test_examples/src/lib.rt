// No function: the standard's examples and a slip, computed by the definitions (proofs/). They stand apart from the crates whose
// definitions they compute, since each costs about a second and an edit that must fail proves its crate anew.
#![tactic(auto)]

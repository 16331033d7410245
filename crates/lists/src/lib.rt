// Definitions and laws of lists, tests and counts, for every crate above. It has no code of its own.
#![tactic(auto)]

// Walks along a relation. It has no code of its own.
#![tactic(auto)]

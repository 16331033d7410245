// Merging one vertex into another. It has no code of its own.
#![tactic(auto)]

// Edits one call after the other. It has no code of its own.
#![tactic(auto)]

// What a call that writes a sheet answers and leaves: definitions and laws alone.
#![tactic(auto)]

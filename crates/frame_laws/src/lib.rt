// Laws of frame text. It has no code of its own.
#![tactic(auto)]

// What the release desk promises: the grounds of its refusals, and that its promises determine what it answers and leaves. No code.
#![tactic(auto)]

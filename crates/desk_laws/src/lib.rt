// What may be held to the release desk: theorems over its calls. No code.
#![tactic(auto)]

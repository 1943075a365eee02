// The demands as theorems over the outcomes of the public routines; no code of its own.
#![tactic(auto)]

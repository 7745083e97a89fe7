// Definitions and laws only, in specs/: searching a list, changing each element of it, and what a loop over an array has done so far.
#![tactic(auto)]

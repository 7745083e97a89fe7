// Definitions, in specs/, and theorems, in proofs/: what a wire layer has to have and what follows from it, demand 3 among it; and that usbredir
// packets are such a layer.
#![tactic(auto)]

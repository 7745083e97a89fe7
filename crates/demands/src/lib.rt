// Theorems only: the three demands, of the reader and the writer that the contracts of `gate` cite. Definitions and statements are in
// specs/, proofs in proofs/.
#![tactic(auto)]

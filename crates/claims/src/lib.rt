// Theorems only: what follows from the definitions of the session. Definitions and statements are in specs/, proofs in proofs/.
#![tactic(auto)]

// Theorems about the meaning of an image. They stand in proofs/; there is no code here.
#![tactic(auto)]

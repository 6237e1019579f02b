// Theorems about tables built from written rows; no code.
#![tactic(auto)]

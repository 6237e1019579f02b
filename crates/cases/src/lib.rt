// Worked examples of the meaning of an image: they stand in specs/ and proofs/. The code is tests alone.
#![tactic(auto)]

#[cfg(test)]
mod numbers;

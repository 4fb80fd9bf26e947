// The set pieces of document 01: specs/ states them, and proofs/ proves them. There is no code.
#![tactic(auto)]

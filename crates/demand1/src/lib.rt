// Demand 1 as theorems about the definitions: specs/ states them, proofs/ proves them. There is no function here.
#![tactic(auto)]

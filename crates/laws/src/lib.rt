// Laws about the paper's definitions that several crates cite: proofs/ has them, and specs/ what they and the contracts are given.
// There is no function here.
#![tactic(auto)]

#![tactic(auto)]

// Theorems about the definitions that the contracts cite. There is no code here: specs/ states, proofs/ proves.

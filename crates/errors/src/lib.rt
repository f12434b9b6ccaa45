#![tactic(auto)]

// What may reach the sender, and how far it is from honest values. There is no code here: specs/ states, proofs/ proves.

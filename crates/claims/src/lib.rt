// No code stands here: specs/ and proofs/ state and prove what holds of the whole.
#![tactic(auto)]

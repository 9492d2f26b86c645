// What is proved of a call: the claims in specs/, their proofs in proofs/. No code.
#![tactic(auto)]

// Definitions, in specs/, and their laws, in proofs/. No code.
#![tactic(auto)]

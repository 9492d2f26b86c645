// Definitions and laws, in specs/. No code.
#![tactic(auto)]

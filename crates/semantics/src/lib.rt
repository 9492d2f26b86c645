// What a call means, in specs/. No code.
#![tactic(auto)]

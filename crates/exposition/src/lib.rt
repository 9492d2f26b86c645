// The text exposition format: definitions and their laws, in specs/. No code.
#![tactic(auto)]

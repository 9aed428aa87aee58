// No code: what is promised of the dump.
#![tactic(auto)]

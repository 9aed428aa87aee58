// No code: the reason that is named is true, and the values that it gives are taken.
#![tactic(auto)]

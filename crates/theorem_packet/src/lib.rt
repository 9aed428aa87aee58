// No code: definitions and theorems that speak of several layers at once.
#![tactic(auto)]

// No code: the third demand, of any sequence of packets and flushes on one reader.
#![tactic(auto)]

// Records set out one after the other, each behind its length: what the reading of a file says of them. There is no code here.
#![tactic(auto)]

// An accepted file, salvaged, loses nothing; and what is written of a torn file, salvaged again, is the same (request 11). There is no code here.
#![tactic(auto)]

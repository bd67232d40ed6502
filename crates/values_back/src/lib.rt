// Reading what was made out of a draft gives back the values that were given (request 4). There is no code here.
#![tactic(auto)]

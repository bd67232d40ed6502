// The arrangement of a file and the theorem that the reading accepts exactly those files that have one. There is no code here.
#![tactic(auto)]

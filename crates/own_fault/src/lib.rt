// The theorem of request 7: a fault is the file's own. There is no code here.
#![tactic(auto)]

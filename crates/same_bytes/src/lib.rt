// The theorem of request 4 that an accepted file, given as its values, is made again byte for byte. There is no code here.
#![tactic(auto)]

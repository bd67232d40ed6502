// What is written of a torn file is read back; what is kept of it is written as it stands; and only some refusals can come (request 11). There is no code here.
#![tactic(auto)]

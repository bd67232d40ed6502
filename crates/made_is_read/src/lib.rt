// What is made out of a draft is read as it was made (request 4). There is no code here.
#![tactic(auto)]

// The samples that document 01 marks P stand in specs/Samples.antt, as one table with one proof. There is no code here.
#![tactic(auto)]

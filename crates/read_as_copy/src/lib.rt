// The theorem of request 5: a file gets the answer and the rows that its ASCII copy gets. There is no code here.
#![tactic(auto)]

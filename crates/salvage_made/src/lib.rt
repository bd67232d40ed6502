// No code: that the values of what is left of a torn file go by the marks of its records, one after the other (request 11).
#![tactic(auto)]

// No code: what the cash letters of a file come to, and that it is what the letters of its arrangement do.
#![tactic(auto)]

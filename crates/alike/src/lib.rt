// Records that stand alike in two files: what the reading looks at in both is the same. There is no code here.
#![tactic(auto)]

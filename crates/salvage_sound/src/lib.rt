// No code: a run is read through behind its header exactly where it is a sound bundle, or a sound credit (request 11).
#![tactic(auto)]

// No code: whole histories of calls on a book, and that they go as on a plain list of entries.
#![tactic(auto)]

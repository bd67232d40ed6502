// No code: a torn EBCDIC file is salvaged as its ASCII copy is (request 11).
#![tactic(auto)]

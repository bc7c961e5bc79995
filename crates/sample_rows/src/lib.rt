// The samples of documents 01 and 02, proved of the definitions: see `specs` and `proofs`. There is no code here; the program `samples` runs them.
#![tactic(auto)]

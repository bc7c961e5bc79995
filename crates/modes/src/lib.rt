// The mode machine, which judges a text byte by byte, and what it notes on its way: see `specs` and `proofs`. There is no code here; `judge` runs it.
#![tactic(auto)]

// The theorems of the entry desk that no operation needs: the contracts determine every answer and every byte, what a form holds after any keys, and which keys
// lead to it. There is no code here; see `specs` and `proofs`.
#![tactic(auto)]

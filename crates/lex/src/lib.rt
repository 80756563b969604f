// Lists in dictionary order and the laws of searching for the first: no code, only specs/ and proofs/.
#![tactic(auto)]

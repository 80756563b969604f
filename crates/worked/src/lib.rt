// The worked weeks of document 01 as one table over the definitions, with one proof: no code, only specs/ and proofs/.
#![tactic(auto)]

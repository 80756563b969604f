// Partial orders and the laws of searching for an order that extends one, lots in any order: no code, only specs/ and proofs/.
#![tactic(auto)]

// The week cut down to the lots that a partial order places, as the search for super solutions tests it: no code, only specs/ and proofs/.
#![tactic(auto)]

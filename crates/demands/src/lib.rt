// The three demands as a reader states them, proved of the definitions that the services' contracts name: no code, only specs/ and proofs/.
#![tactic(auto)]

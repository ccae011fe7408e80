// The clause layer of document 01: its definitions and theorems (specs/ and proofs/). There is no function here: the layer's code is in the crates
// `marking` and `summing`.

#![tactic(auto)]

#![tactic(auto)]

// What a lesson prints, line by line: each line's result is that of the line by itself, and with two lines exchanged the two results are exchanged.
// This crate has no code of its own.
//
// specs/Exchange.antt says what a result by itself and an exchange are; proofs/Theorems.antt has the theorems.

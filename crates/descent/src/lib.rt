#![tactic(auto)]

// Recursive descent through the text of a drill, as a function of the text, and that it is the grammar. This crate has no code of
// its own.
//
// specs/Descent.antt has the function, which the contracts of the readers in `parser` cite; proofs/Complete.antt has the theorems that
// it finds an expression exactly if the text is of the form, and that a text is no two drills.

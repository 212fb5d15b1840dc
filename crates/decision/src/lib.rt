#![tactic(auto)]

// That fitting is decided: whether a stretch fits a drill, on every recording and of every drill. This crate has no code of its own.
//
// specs/Drawn.antt says what a finite union of zones is, of any number; proofs/Drawn.antt has the theorem that every drill's stretches are one;
// proofs/Theorems.antt has what follows: fitting is decided, and an absent drill and the drill itself fit every stretch between them.

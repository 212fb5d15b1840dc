#![tactic(auto)]

// What a drill means: which stretches satisfy an expression, and which list and rounds it comes to. This crate has no code of its own.
//
// specs/Satisfies.antt says which stretches satisfy an expression, specs/Lists.antt which list and rounds it comes to;
// proofs/Members.antt has the theorem that the list holds exactly these stretches.

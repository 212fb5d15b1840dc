#![tactic(auto)]

// The marked set: what the finder gives on recording R, in one table and one theorem. This crate has no code of its own.
//
// specs/Marked.antt has the table; `marked_set` in proofs/Marked.antt is about the whole of it.

#![tactic(auto)]

// Laws on signed numbers that the crates above share: this crate has no code of its own.
//
// proofs/Integers.antt lets omega, which reads natural numbers, decide linear facts about integers;
// proofs/Machine.antt says what the machine's signed locals hold.

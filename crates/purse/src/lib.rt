// What building a list comes to that has rounds to spend: it is told how many there are, and tells how many are left.
//
// specs/Value.antt has the list with its rounds, or how far the rounds came before an overflow; specs/Purse.antt what that means for
// the rounds told. A purse is compared with the rounds begun, and is no part of what they come to.
#![tactic(auto)]

// A list with its count, and the rounds left.
#[derive(Clone, Copy)]
pub struct Listed {
    pub count: usize,
    pub left: u64,
}

// Why there is none: one would have 129 zones, with the rounds left; or a round would be begun beyond those told. The `Overflow` of a list has no
// rounds left, so that there is no `From`: it becomes this one where they are known.
#[derive(Clone, Copy)]
pub enum Stopped {
    Overflow { left: u64 },
    Spent,
}

// Times and limits: an upper limit on a difference of two times, its sums, its order and its word.
//
// specs/ says what a time and a limit mean; proofs/Times.antt has the laws of times, proofs/Order.antt those of limits, proofs/Coding.antt
// those of their words. A `requires` is only of ranges. It stands at the functions and not in the type as an invariant, because any word of
// a lent buffer is read as a limit (`from`), and a word may be far out of range. A tick is a number with a bound in the contract: as a type of
// its own it would be made and taken apart at each call.
#![tactic(auto)]

ghost use Rattle.std.specs.Prelude.{◌≡◌, ◌≤◌, pos, neg_ℤ, ◌+ℤ◌, ◌-ℤ◌};
ghost use Rattle.std.specs.Int.Signed.{mag};
ghost use Rattle.limit.specs.Limit.{at_most, lesser, greater, ◌⊕◌, nought, broken, IsBroken, most, least, less, more, IsMost, IsLeast, IsLess, IsMore, most_ticks, most_sum, code, decode, Small};

// An upper limit: reached (non-strict) or not reached (strict), with its whole number.
#[derive(Clone, Copy)]
pub enum Limit {
    AtMost(i32),
    Below(i32),
}

// A tick as a limit's number, and negated. `i32` has no `From<u32>`, and `try_from` would bring an error that the `requires` rules out.
pub fn positive(n: u32) -> i32
    requires { n ≤ most_ticks }
    ensures { result ≡ pos n }
{
    n as i32
}

pub fn negative(n: u32) -> i32
    requires { n ≤ most_ticks }
    ensures { result ≡ neg_ℤ (pos n) }
{
    -positive(n)
}

// What the sum of two words has more than the word of the sum, which is reached if both limits are: one where either is.
fn excess(a: i32, b: i32) -> i32
    ensures { (result ≡ (a +ℤ b) -ℤ code (decode a ⊕ decode b)) × (mag result ≤ 1) }
{
    if (a >> 1) * 2 != a {
        return 1;
    }
    b - (b >> 1) * 2
}

// The sum of two limits, of their words.
fn sum(a: i32, b: i32) -> i32
    requires { (Small most_sum (decode a)) × (Small most_sum (decode b)) }
    ensures { result ≡ code (decode a ⊕ decode b) }
{
    a + b - excess(a, b)
}

// The lesser of two limits, of their words, and the greater.
#[tactic(auto, using(crate::proofs::Coding::lesser_of))]
pub fn lesser(a: i32, b: i32) -> i32
    ensures { result ≡ code (lesser (decode a) (decode b)) }
{
    a.min(b)
}

#[tactic(auto, using(crate::proofs::Coding::greater_of))]
pub fn greater(a: i32, b: i32) -> i32
    ensures { result ≡ code (greater (decode a) (decode b)) }
{
    a.max(b)
}

// The lesser of a limit and the sum of two others, of their words.
fn or_sum(a: i32, b: i32, c: i32) -> i32
    requires { (Small most_sum (decode b)) × (Small most_sum (decode c)) }
    ensures { result ≡ code (lesser (decode a) (decode b ⊕ decode c)) }
{
    lesser(a, sum(b, c))
}

// Whether a limit and one on the negated quantity leave room between them, of their words: whether these come to 2 or more. The
// other's word stands on a side of its own, so that it is worked out once for all limits held against it.
pub fn room(word: i32, negated: i32) -> bool
    requires { Small most_sum (decode negated) }
    ensures { result ≡ at_most nought (decode word ⊕ decode negated) }
{
    2 - negated <= word
}

// The word of the limit on the negated quantity that is kept to exactly where the limit of this word is broken.
pub fn broken(word: i32) -> i32
    requires { Small most_sum (decode word) }
    ensures value { result ≡ code (broken (decode word)) }
    ensures meaning { IsBroken (decode word) (decode result) }
{
    1 - word
}

impl Limit {
    // Each of the next four is one value, of a case and a sign of its own: one function for all would take both as parameters.
    //
    // At most n, reached.
    pub fn most(n: u32) -> Limit
        requires { n ≤ most_ticks }
        ensures value { result ≡ most n }
        ensures meaning { IsMost n result }
    {
        Limit::AtMost(positive(n))
    }

    // At least n, reached: at most −n of the negated quantity.
    pub fn least(n: u32) -> Limit
        requires { n ≤ most_ticks }
        ensures value { result ≡ least n }
        ensures meaning { IsLeast n result }
    {
        Limit::AtMost(negative(n))
    }

    // Less than n.
    pub fn less(n: u32) -> Limit
        requires { n ≤ most_ticks }
        ensures value { result ≡ less n }
        ensures meaning { IsLess n result }
    {
        Limit::Below(positive(n))
    }

    // More than n: below −n of the negated quantity.
    pub fn more(n: u32) -> Limit
        requires { n ≤ most_ticks }
        ensures value { result ≡ more n }
        ensures meaning { IsMore n result }
    {
        Limit::Below(negative(n))
    }

    // This, `lesser`, `or_sum` and `leaves_room` are one call each, of the function on words of the same sense.
    pub fn plus(self, other: Limit) -> Limit
        requires { (Small most_sum self) × (Small most_sum other) }
        ensures { result ≡ self ⊕ other }
    {
        Limit::from(sum(self.word(), other.word()))
    }

    // Whether this limit is at most the other. A derived order would set one case before the other and not first by number, and an order
    // written as an impl would need more code and laws to be asked for this one test.
    pub fn at_most(self, other: Limit) -> bool
        ensures { result ≡ at_most self other }
    {
        match (self, other) {
            (Limit::AtMost(a), Limit::Below(b)) => a < b,
            (Limit::AtMost(a) | Limit::Below(a), Limit::AtMost(b) | Limit::Below(b)) => a <= b,
        }
    }

    pub fn lesser(self, other: Limit) -> Limit
        requires { (Small most_sum self) × (Small most_sum other) }
        ensures { result ≡ lesser self other }
    {
        Limit::from(lesser(self.word(), other.word()))
    }

    // The lesser of this limit and the sum of two others.
    pub fn or_sum(self, a: Limit, b: Limit) -> Limit
        requires { (Small most_sum self) × (Small most_sum a) × (Small most_sum b) }
        ensures { result ≡ lesser self (a ⊕ b) }
    {
        Limit::from(or_sum(self.word(), a.word(), b.word()))
    }

    // Whether this limit and the one on the negated quantity leave room between them.
    pub fn leaves_room(self, negated: Limit) -> bool
        requires { (Small most_sum self) × (Small most_sum negated) }
        ensures { result ≡ at_most nought (self ⊕ negated) }
    {
        room(self.word(), negated.word())
    }

    // The word of a limit: twice its number, and one more where it is reached. It has a `requires`, so it is no `From`.
    pub fn word(self) -> i32
        requires { Small most_sum self }
        ensures { result ≡ code self }
    {
        match self {
            Limit::AtMost(v) => v * 2 + 1,
            Limit::Below(v) => v * 2,
        }
    }
}

// The limit of a word.
impl From<i32> for Limit {
    ghost from_gives = { λ w l. l ≡ decode w };

    fn from(w: i32) -> Limit {
        let h = w >> 1;
        if h * 2 != w {
            Limit::AtMost(h)
        } else {
            Limit::Below(h)
        }
    }
}

// What an operator comes to from the finished lists of its operands, in slots of a lent work buffer. A list is built in a free slot and brought
// to its place.
//
// The crate `purse` says how a slot holds a value; `meaning` which value it is. That a range is not wrong (`Wrong`) is asked and no type, since the
// words of a node may stand for any range.
#![tactic(auto)]

ghost use Rattle.std.specs.Prelude.{◌≡◌, ◌⊎◌, ◌+◌, ◌*◌, ◌≤◌};
ghost use Rattle.limit.specs.Limit.{most_ticks};
ghost use Rattle.list.specs.Slots.{slot_words, list_at, Free, Kept, Source, Disjoint};
ghost use Rattle.operators.specs.Operators.{banded};
ghost use Rattle.absence.specs.Absence.{absent};
ghost use Rattle.pairs.specs.Operands.{Operands};
ghost use Rattle.operators.specs.Listing.{BuiltAs};
ghost use Rattle.expression.specs.Refusal.{figure, Wrong};
ghost use Rattle.expression.specs.Planted.{Right};
ghost use Rattle.meaning.specs.Satisfies.{upper_limit, lower_limit};
ghost use Rattle.zone.specs.Zone.{diagonal};
ghost use Rattle.star.specs.Star.{Star};
ghost use Rattle.purse.specs.Purse.{EvaluatedAs};
ghost use Rattle.meaning.specs.Lists.{ended, longest, range_band, join_list, applied};
ghost use Rattle.values.specs.Values.{OperandAt};
ghost use Rattle.values.specs.Steps.{unspent, Bringable, BroughtAs};

use expression::{End, Join, Range, Unary};
use limit::Limit;
use list::{Overflow, SLOT_WORDS};
use purse::{Listed, Stopped};
use zone::{Ticks, Zone};

// The words of two slots: how far behind its operands' slots a list is built.
const TWO_SLOTS: usize = 2 * SLOT_WORDS;

// What a list that was built without rounds comes to, with the rounds left.
fn unspent(built: Result<usize, Overflow>, left: u64) -> Result<Listed, Stopped>
    ensures { result ≡ unspent built left }
{
    match built {
        Ok(count) => Ok(Listed { count, left }),
        Err(Overflow) => Err(Stopped::Overflow { left }),
    }
}

// The list that was built at `at`, brought to `base`; where there is none, the answer stays as it is.
fn brought(
    work: &mut [i32],
    built: Result<Listed, Stopped>,
    at: usize,
    base: usize,
) -> Result<Listed, Stopped>
    requires { (Bringable built) × (Free work.old at) × (Free work.old base) × (Disjoint at base) }
    ensures brought { BroughtAs work.old at built work.new base result }
    ensures kept { Kept base slot_words work.old work.new }
{
    let listed = built?;
    list::bring(work, at, listed.count, base);
    Ok(listed)
}

// `|`, `&` and `.`: the list of the operator, from the lists of n and m zones at `left` and `right`, built at `target`.
fn build(
    op: Join,
    work: &mut [i32],
    left: usize,
    n: usize,
    right: usize,
    m: usize,
    target: usize,
) -> Result<usize, Overflow>
    requires { Operands work.old left n right m target 0 }
    ensures built { BuiltAs (join_list op (list_at work.old left n) (list_at work.old right m)) work.new target result }
    ensures kept { Kept target slot_words work.old work.new }
{
    match op {
        Join::Union => operators::union(work, left, n, right, m, target),
        Join::Intersection => operators::meets(work, left, n, right, m, target),
        Join::Concatenation => {
            let composed = operators::compositions(work, left, n, right, m, target)?;
            Ok(composed.count)
        }
    }
}

// The same of the left list, of n zones in the slot at `base`, and the right one, of m zones in the slot after it, brought to `base`. No round
// is spent. The other words of the three slots from `base` on are free, and all of them where it overflows.
pub fn combine(
    op: Join,
    work: &mut [i32],
    base: usize,
    n: usize,
    m: usize,
    left: u64,
) -> Result<Listed, Stopped>
    requires { (OperandAt work.old base n) × (Source work.old (base + slot_words) m) }
    ensures value { EvaluatedAs (λ v. v ≡ ended (join_list op (list_at work.old base n) (list_at work.old (base + slot_words) m))) left work.new base result }
    ensures kept { Kept base (3 * slot_words) work.old work.new }
{
    let target = base + TWO_SLOTS;
    let built = build(op, work, base, n, base + SLOT_WORDS, m, target);
    brought(work, unspent(built, left), target, base)
}

// The limit that an end sets as the hi of a range, and as the lo. They have nothing in common but the two cases: one function for both would
// take the limits that it makes as parameters.
fn upper_limit(end: End) -> Limit
    requires { figure end ≤ most_ticks }
    ensures { result ≡ upper_limit end }
{
    match end {
        End::Closed(n) => Limit::most(n),
        End::Open(n) => Limit::less(n),
    }
}

fn lower_limit(end: End) -> Limit
    requires { figure end ≤ most_ticks }
    ensures { result ≡ lower_limit end }
{
    match end {
        End::Closed(n) => Limit::least(n),
        End::Open(n) => Limit::more(n),
    }
}

// The limit of a range on end − start; without a hi it is the length of ticks from..to, which no stretch exceeds.
fn longest(range: Range, ticks: Ticks) -> Limit
    requires { Wrong range → ⊥ }
    ensures { result ≡ longest ticks.from ticks.to range.hi }
{
    match range.hi {
        None => Limit::most(ticks.to - ticks.from),
        Some(end) => upper_limit(end),
    }
}

// The band of a range.
fn range_band(range: Range, ticks: Ticks) -> Option<Zone>
    requires { Wrong range → ⊥ }
    ensures { result ≡ range_band ticks.from ticks.to range }
{
    let hi = longest(range, ticks);
    Zone::band(ticks.from, ticks.to, hi, lower_limit(range.lo))
}

// `{lo,hi}`: the meets of the list in the slot at `base` with the band, brought to `base`. No round is spent.
fn banded(
    work: &mut [i32],
    base: usize,
    n: usize,
    range: Range,
    ticks: Ticks,
    left: u64,
) -> Result<Listed, Stopped>
    requires { (OperandAt work.old base n) × (Wrong range → ⊥) }
    ensures value { EvaluatedAs (λ v. v ≡ ended (banded (range_band ticks.from ticks.to range) (list_at work.old base n))) left work.new base result }
    ensures kept { Kept base (3 * slot_words) work.old work.new }
{
    let target = base + TWO_SLOTS;
    let band = range_band(range, ticks);
    let built = operators::band(work, base, n, band, base + SLOT_WORDS, target);
    brought(work, unspent(built, left), target, base)
}

// `*`: the rounds from the list in the slot at `base`, and then the diagonal, brought to `base`.
fn star(work: &mut [i32], base: usize, n: usize, ticks: Ticks, told: u64) -> Result<Listed, Stopped>
    requires { OperandAt work.old base n }
    ensures value { EvaluatedAs (Star (list_at work.old base n) (diagonal ticks.from ticks.to)) told work.new base result }
    ensures kept { Kept base (3 * slot_words) work.old work.new }
{
    let closed = base + SLOT_WORDS;
    let scratch = base + TWO_SLOTS;
    let starred = star::star(work, base, n, scratch, closed, ticks, told);
    brought(work, starred, closed, base)
}

// `~`: the stretches of ticks from..to that lie in none of the zones in the slot at `base`, listed there. No round is spent.
fn absent(
    work: &mut [i32],
    base: usize,
    n: usize,
    ticks: Ticks,
    left: u64,
) -> Result<Listed, Stopped>
    requires { OperandAt work.old base n }
    ensures value { EvaluatedAs (λ v. v ≡ ended (absent ticks.from ticks.to (list_at work.old base n))) left work.new base result }
    ensures kept { Kept base (3 * slot_words) work.old work.new }
{
    unspent(absence::absent(work, base, n, ticks), left)
}

// The operators with one operand, on its list of n zones in the slot at `base`, with the rounds that it has left. The other words of the
// three slots from there on are free, and all of them where there is no list.
pub fn apply(
    op: Unary,
    work: &mut [i32],
    base: usize,
    n: usize,
    ticks: Ticks,
    left: u64,
) -> Result<Listed, Stopped>
    requires { (OperandAt work.old base n) × (Right op) }
    ensures value { EvaluatedAs (applied ticks.from ticks.to op (list_at work.old base n)) left work.new base result }
    ensures kept { Kept base (3 * slot_words) work.old work.new }
{
    match op {
        Unary::Star => star(work, base, n, ticks, left),
        Unary::Band(range) => banded(work, base, n, range, ticks, left),
        Unary::Absence => absent(work, base, n, ticks, left),
    }
}

// The rounds of a star. They end, by the bound n + d on their number (proofs/Bound.antt), or with the rounds told.
//
// specs/Star.antt says what the rounds come to, over plain lists of zones.
#![tactic(auto)]

ghost use Rattle.std.specs.Prelude.{◌≡◌, ◌⊎◌, [], ◌∷◌, Some};
ghost use Rattle.zone.specs.Zone.{diagonal};
ghost use Rattle.list.specs.Insert.{insert_each};
ghost use Rattle.list.specs.Slots.{slot_words, list_at, Free, Source, Kept, KeptBoth, Disjoint};
ghost use Rattle.pairs.specs.Operands.{Operands};
ghost use Rattle.operators.specs.Listing.{Workspace, BuiltAs};
ghost use Rattle.purse.specs.Purse.{EvaluatedAs};
ghost use Rattle.star.specs.Star.{Star};
ghost use Rattle.star.specs.Steps.{RoundAs, EndsAs};

use list::Overflow;
use pairs::Compose;
use purse::{Listed, Stopped};
use std::mem;
use zone::{Ticks, Zone};

// A round: how many zones the new list has, or `None` where nothing changed; and how many pairs it composed.
#[derive(Clone, Copy)]
struct Round {
    changed: Option<usize>,
    pairs: usize,
}

// All rounds of a star: where the last list stands, its count and the rounds left.
#[derive(Clone, Copy)]
struct Ended {
    at: usize,
    count: usize,
    left: u64,
}

// One round: the list copied to `copy`, and there each listed zone's composition with each inner zone that it touches.
fn one_round(
    words: &mut [i32],
    list: usize,
    n: usize,
    inner: usize,
    m: usize,
    copy: usize,
) -> Result<Round, Overflow>
    requires { Operands words.old list n inner m copy 0 }
    ensures round { RoundAs (list_at words.old inner m) (list_at words.old list n) words.new copy result }
    ensures kept { Kept copy slot_words words.old words.new }
{
    list::copy_zones(words, list, copy, n);
    let old = growing::standing(n);
    let g = products::each_pair::<Compose>(words, list, n, inner, m, copy, old)?;
    let changed = if g.changed == 0 { None } else { Some(g.count) };
    Ok(Round {
        changed,
        pairs: g.pairs,
    })
}

// All rounds of a star, from the inner list at `first` on. A round goes from the one slot to the other, so that only the
// copy is made that a round is. None is begun beyond those told; that more would be begun then is known by the bound on rounds.
fn all_rounds(
    words: &mut [i32],
    inner: usize,
    m: usize,
    first: usize,
    second: usize,
    told: u64,
) -> Result<Ended, Stopped>
    requires { (Workspace words.old inner m first second) × (list_at words.old first m ≡ list_at words.old inner m) }
    ensures ended { EndsAs (list_at words.old inner m) told first second words.new result }
    ensures kept { KeptBoth first second words.old words.new }
{
    let mut list = first;
    let mut copy = second;
    let mut n = m;
    let mut left = told;
    loop {
        if left == 0 {
            return Err(Stopped::Spent);
        }
        let Ok(round) = one_round(words, list, n, inner, m, copy) else {
            return Err(Stopped::Overflow { left });
        };
        left -= 1;
        let Some(count) = round.changed else {
            return Ok(Ended {
                at: list,
                count: n,
                left,
            });
        };
        n = count;
        mem::swap(&mut list, &mut copy);
    }
}

// The list of n zones at `at`, brought to `target`, with the diagonal of the ticks put into it.
fn close(
    words: &mut [i32],
    at: usize,
    n: usize,
    target: usize,
    ticks: Ticks,
) -> Result<usize, Overflow>
    requires { (Source words.old at n) × (Free words.old target) × ((at ≡ target) ⊎ (Disjoint at target)) }
    ensures built { BuiltAs (insert_each (Some (diagonal ticks.from ticks.to) ∷ []) (list_at words.old at n)) words.new target result }
    ensures kept { Kept target slot_words words.old words.new }
{
    list::bring(words, at, n, target);
    let diagonal = Zone::diagonal(ticks.from, ticks.to);
    let g = growing::grow(words, target, growing::standing(n), diagonal)?;
    Ok(g.count)
}

// `*`: the rounds, and then the diagonal of the ticks, into the list at `target`. It may make as many rounds as it is told. The slot
// `scratch` is free afterwards, and `target` too where there is no list.
pub fn star(
    words: &mut [i32],
    inner: usize,
    m: usize,
    scratch: usize,
    target: usize,
    ticks: Ticks,
    told: u64,
) -> Result<Listed, Stopped>
    requires { Workspace words.old inner m target scratch }
    ensures closed { EvaluatedAs (Star (list_at words.old inner m) (diagonal ticks.from ticks.to)) told words.new target result }
    ensures kept { KeptBoth target scratch words.old words.new }
    ensures free { Free words.new target × Free words.new scratch }
{
    list::copy_zones(words, inner, target, m);
    let last = all_rounds(words, inner, m, target, scratch, told)?;
    let left = last.left;
    let Ok(count) = close(words, last.at, last.count, target, ticks) else {
        return Err(Stopped::Overflow { left }); // the diagonal would be the 129th
    };
    Ok(Listed { count, left })
}

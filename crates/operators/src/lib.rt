// The list of each operator, built from the finished lists of its operands. One function for each rule of document 01.
//
// specs/ has a definition of the same name for each rule, over plain lists of zones. The zones that are combined are tight and
// inside 0..1,000,000, which every rule keeps.
#![tactic(auto)]

ghost use Rattle.std.specs.Prelude.{[], ◌∷◌, map, ◌+◌, ◌≤◌, length, Some};
ghost use Rattle.words.specs.Words.{zone_words, zone_at};
ghost use Rattle.operators.specs.Operators.{union, meets, banded};
ghost use Rattle.list.specs.Slots.{slot_words, list_at, Free, Kept, KeptBoth};
ghost use Rattle.growing.specs.Growth.{Stands, NoPair, GrowsAs};
ghost use Rattle.pairs.specs.Operands.{Supply, Operands};
ghost use Rattle.operators.specs.Listing.{Workspace, SoundBand, BuiltAs, ComposedAs};

use growing::Growing;
use list::Overflow;
use pairs::{Compose, Meet};
use words::ZONE_WORDS;
use zone::Zone;

// What `.` comes to: a list with its count, and the number of pairs composed.
#[derive(Clone, Copy)]
pub struct Composed {
    pub count: usize,
    pub pairs: usize,
}

// Puts the zone from `at` on.
fn grow_from(words: &mut [i32], at: usize, target: usize, g: Growing) -> Result<Growing, Overflow>
    requires { (at + zone_words ≤ length words.old) × (Stands words.old target g) }
    ensures grown { GrowsAs (Some (zone_at words.old at) ∷ []) NoPair g words.old target words.new result }
    ensures kept { Kept target slot_words words.old words.new }
{
    let mut w = [0i32; ZONE_WORDS];
    words::copy_zone(&mut w, 0, words, at);
    growing::grow_words(words, target, g, &w)
}

// Puts the n zones of a slot, in their order.
fn each_zone(
    words: &mut [i32],
    source: usize,
    n: usize,
    target: usize,
    g: Growing,
) -> Result<Growing, Overflow>
    requires { (Supply words.old source n target g.count) × (Stands words.old target g) }
    ensures grown { GrowsAs (map Some (list_at words.old source n)) NoPair g words.old target words.new result }
    ensures kept { Kept target slot_words words.old words.new }
{
    let mut grown = g;
    for i in 0..n {
        grown = grow_from(words, source + i * ZONE_WORDS, target, grown)?;
    }
    Ok(grown)
}

// `|`: the left zones, then the right ones, into an empty list at `target`.
pub fn union(
    words: &mut [i32],
    left: usize,
    n: usize,
    right: usize,
    m: usize,
    target: usize,
) -> Result<usize, Overflow>
    requires { Operands words.old left n right m target 0 }
    ensures built { BuiltAs (union (list_at words.old left n) (list_at words.old right m)) words.new target result }
    ensures kept { Kept target slot_words words.old words.new }
{
    let lefts = each_zone(words, left, n, target, growing::nothing())?;
    let all = each_zone(words, right, m, target, lefts)?;
    Ok(all.count)
}

// `&`: the meets of all pairs, into an empty list at `target`.
pub fn meets(
    words: &mut [i32],
    left: usize,
    n: usize,
    right: usize,
    m: usize,
    target: usize,
) -> Result<usize, Overflow>
    requires { Operands words.old left n right m target 0 }
    ensures built { BuiltAs (meets (list_at words.old left n) (list_at words.old right m)) words.new target result }
    ensures kept { Kept target slot_words words.old words.new }
{
    let empty = growing::nothing();
    let g = products::each_pair::<Meet>(words, left, n, right, m, target, empty)?;
    Ok(g.count)
}

// `.`: the compositions of all pairs, into an empty list at `target`, and how many pairs were composed: those in which some end of the
// left zone is a start of the right one.
pub fn compositions(
    words: &mut [i32],
    left: usize,
    n: usize,
    right: usize,
    m: usize,
    target: usize,
) -> Result<Composed, Overflow>
    requires { Operands words.old left n right m target 0 }
    ensures composed { ComposedAs (list_at words.old left n) (list_at words.old right m) words.new target result }
    ensures kept { Kept target slot_words words.old words.new }
{
    let empty = growing::nothing();
    let g = products::each_pair::<Compose>(words, left, n, right, m, target, empty)?;
    Ok(Composed {
        count: g.count,
        pairs: g.pairs,
    })
}

// `{lo,hi}`: each zone's meet with the band, into an empty list at `target`. The band stands in the slot `scratch`, which is
// free afterwards.
pub fn band(
    words: &mut [i32],
    source: usize,
    n: usize,
    limits: Option<Zone>,
    scratch: usize,
    target: usize,
) -> Result<usize, Overflow>
    requires { (Workspace words.old source n target scratch) × (SoundBand limits) }
    ensures built { BuiltAs (banded limits (list_at words.old source n)) words.new target result }
    ensures kept { KeptBoth target scratch words.old words.new }
    ensures free { Free words.new scratch }
{
    let Some(z) = limits else {
        return Ok(0);
    };
    words::write_zone(words, scratch, z);
    meets(words, source, n, scratch, 1, target)
}

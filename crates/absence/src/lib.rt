// The list of `~`: the stretches that lie in none of the operand's zones. It begins with one zone, all stretches; for each zone of the
// operand a new list is made, of the parts of the listed zones outside it.
//
// specs/Absence.antt has the rule over plain lists of zones; proofs/Theorems.antt is the page of laws that crates above cite.
#![tactic(auto)]

ghost use Rattle.std.specs.Prelude.{[], ◌∷◌, map, ◌+◌, ◌*◌, ◌≤◌, length, Some};
ghost use Rattle.zone.specs.Zone.{Proper};
ghost use Rattle.words.specs.Words.{zone_words, zone_at};
ghost use Rattle.parts.specs.Parts.{parts};
ghost use Rattle.parts.specs.Shares.{ShareNone};
ghost use Rattle.list.specs.Slots.{slot_words, list_at, Source, Kept};
ghost use Rattle.growing.specs.Growth.{Stands, NoPair, GrowsAs};
ghost use Rattle.pairs.specs.Operands.{Supply};
ghost use Rattle.pairs.specs.Row.{Zones};
ghost use Rattle.operators.specs.Listing.{BuiltAs};
ghost use Rattle.absence.specs.Absence.{parts_each, without, without_each, absent};
ghost use Rattle.absence.specs.Steps.{Listable, Growable, Operand};

use growing::Growing;
use list::{Overflow, SLOT_WORDS};
use std::mem;
use words::ZONE_WORDS;
use zone::{Ticks, Zone};

// Puts what is left of a zone, if anything is. It shares no stretch with a listed zone, so that it goes last without a look.
fn put_left(
    words: &mut [i32],
    target: usize,
    g: Growing,
    left: Option<Zone>,
) -> Result<Growing, Overflow>
    requires { (Stands words.old target g) × (Listable (list_at words.old target g.count) left) }
    ensures grown { GrowsAs (left ∷ []) NoPair g words.old target words.new result }
    ensures kept { Kept target slot_words words.old words.new }
{
    let Some(z) = left else {
        return Ok(g);
    };
    let mut w = [0i32; ZONE_WORDS];
    words::write_zone(&mut w, 0, z);
    growing::grow_apart(words, target, g, &w)
}

// Puts the parts of the zone at `at` outside that of six words `cut`, limit by limit, as long as anything is left.
fn put_parts(
    words: &mut [i32],
    at: usize,
    cut: &[i32; ZONE_WORDS],
    target: usize,
    g: Growing,
) -> Result<Growing, Overflow>
    requires { (at + zone_words ≤ length words.old) × (Growable words.old target g (parts (zone_at words.old at) (zone_at cut.now 0))) × (Proper 0 1_000_000 (zone_at words.old at)) × (Proper 0 1_000_000 (zone_at cut.now 0)) }
    ensures grown { GrowsAs (parts (zone_at words.old at) (zone_at cut.now 0)) NoPair g words.old target words.new result }
    ensures kept { Kept target slot_words words.old words.new }
{
    let mut rest = [0i32; ZONE_WORDS];
    words::copy_zone(&mut rest, 0, words, at);
    let mut grown = g;
    for k in 0..ZONE_WORDS {
        let part = parts::part(&rest, cut, k);
        grown = put_left(words, target, grown, part)?;
        parts::keep(&mut rest, cut, k);
        if !parts::has_room(&rest, k) {
            return Ok(grown);
        }
    }
    Ok(grown)
}

// Puts the parts of each of the n zones at `source` outside the zone of six words `cut`, zone by zone. A loop of its own, and no closure for that of
// other operators: the contract says by name what is put for each zone.
fn put_each(
    words: &mut [i32],
    source: usize,
    n: usize,
    cut: &[i32; ZONE_WORDS],
    target: usize,
    g: Growing,
) -> Result<Growing, Overflow>
    requires { (Supply words.old source n target g.count) × (Growable words.old target g (parts_each (zone_at cut.now 0) (list_at words.old source n))) × (Proper 0 1_000_000 (zone_at cut.now 0)) }
    ensures grown { GrowsAs (parts_each (zone_at cut.now 0) (list_at words.old source n)) NoPair g words.old target words.new result }
    ensures kept { Kept target slot_words words.old words.new }
{
    let mut grown = g;
    for i in 0..n {
        grown = put_parts(words, source + i * ZONE_WORDS, cut, target, grown)?;
    }
    Ok(grown)
}

// The new list for the operand's zone at `cut`: the parts outside it of the n zones at `source`, built at `target`.
fn without(
    words: &mut [i32],
    source: usize,
    n: usize,
    cut: usize,
    target: usize,
) -> Result<usize, Overflow>
    requires { (Supply words.old source n target 0) × (Zones words.old cut 1 target) × (ShareNone (map Some (list_at words.old source n))) }
    ensures built { BuiltAs (without (zone_at words.old cut) (list_at words.old source n)) words.new target result }
    ensures kept { Kept target slot_words words.old words.new }
{
    let mut w = [0i32; ZONE_WORDS];
    words::copy_zone(&mut w, 0, words, cut);
    let g = put_each(words, source, n, &w, target, growing::nothing())?;
    Ok(g.count)
}

// For each of the operand's n zones in the slot at `base`, a new list in the place of the last: the lists stand to and fro in the two slots
// behind it, from the one zone in the first of them on. The last is brought to `base`.
fn without_each(words: &mut [i32], base: usize, n: usize) -> Result<usize, Overflow>
    requires { Operand words.old base n }
    ensures built { BuiltAs (without_each (list_at words.old base n) (list_at words.old (base + slot_words) 1)) words.new base result }
    ensures kept { Kept base (3 * slot_words) words.old words.new }
{
    let first = base + SLOT_WORDS;
    let mut here = first;
    let mut there = base + 2 * SLOT_WORDS;
    let mut count = 1;
    for i in 0..n {
        count = without(words, here, count, base + i * ZONE_WORDS, there)?;
        mem::swap(&mut here, &mut there);
    }
    list::bring(words, here, count, base);
    Ok(count)
}

// `~`: the stretches of the ticks that lie in none of the n zones in the slot at `base`, listed there. The two slots behind it are free
// afterwards, and all three where a list would have 129 zones.
pub fn absent(words: &mut [i32], base: usize, n: usize, ticks: Ticks) -> Result<usize, Overflow>
    requires { (Source words.old base n) × (base + 3 * slot_words ≤ length words.old) }
    ensures built { BuiltAs (absent ticks.from ticks.to (list_at words.old base n)) words.new base result }
    ensures kept { Kept base (3 * slot_words) words.old words.new }
{
    let everything = Zone::everything(ticks.from, ticks.to);
    words::write_zone(words, base + SLOT_WORDS, everything);
    without_each(words, base, n)
}

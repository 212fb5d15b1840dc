// The meets or the compositions of all pairs of two lists, put into a growing list.
//
// The crate `pairs` says what is put and which pairs are composed. Most pairs of two long lists have nothing in common: a block of right
// zones is passed over by its hull, and a pair by four words.
#![tactic(auto)]

ghost use Rattle.std.specs.Prelude.{◌≡◌, ◌+◌, ◌*◌, ◌≤◌, ◌<◌, length};
ghost use Rattle.words.specs.Words.{zone_words, word, zone_at};
ghost use Rattle.zone.specs.Zone.{Proper};
ghost use Rattle.list.specs.Insert.{capacity};
ghost use Rattle.list.specs.Slots.{slot_words, list_at, Kept};
ghost use Rattle.hulls.specs.Hulls.{hull_words, Hulls};
ghost use Rattle.growing.specs.Growth.{Stands, GrowsAs};
ghost use Rattle.pairs.specs.Counted.{Counted};
ghost use Rattle.pairs.specs.Pairs.{pairs, beside, crossed, Composed};
ghost use Rattle.pairs.specs.Operands.{Operands};
ghost use Rattle.pairs.specs.Row.{Pairing, PairsAs};
ghost use Rattle.products.specs.Steps.{ReachesAs};

use growing::Growing;
use hulls::{BLOCK, HULL_WORDS};
use list::Overflow;
use pairs::Combine;
use words::ZONE_WORDS;

// Whether the zone at `left` may have something in common with zones of block b of m zones: by its starts for a meet, by its ends for a
// composition. It may where there is one block, which has no hull and is gone through as quickly. Where it may, nothing is said.
fn reaches<C: Combine>(words: &[i32], left: usize, m: usize, hulls: &[i32], b: usize) -> bool
    requires { (left + zone_words ≤ length words.now) × (Proper 0 1_000_000 (zone_at words.now left)) × (b * 2 + 1 < length hulls.now) }
    ensures { ReachesAs C.op (zone_at words.now left) m (word hulls.now (b * 2)) (word hulls.now (b * 2 + 1)) result }
{
    if m <= BLOCK {
        return true;
    }
    touching::share(words, left + C::side(), hulls, b * 2)
}

// Puts the meet or the composition of the zone at `left` with each zone of a list of m, block by block.
fn each_block<C: Combine>(
    words: &mut [i32],
    left: usize,
    right: usize,
    m: usize,
    hulls: &[i32],
    target: usize,
    g: Growing,
) -> Result<Growing, Overflow>
    requires { (Pairing words.old left right m target g) × (Hulls hulls.now words.old right m) × (length hulls.now ≡ hull_words) × (m ≤ capacity) }
    ensures grown { PairsAs C.op (beside (zone_at words.old left) (list_at words.old right m)) g words.old target words.new result }
    ensures kept { Kept target slot_words words.old words.new }
{
    let mut grown = g;
    for b in 0..m.div_ceil(BLOCK) {
        if !reaches::<C>(words, left, m, hulls, b) {
            continue;
        }
        let at = right + b * BLOCK * ZONE_WORDS;
        let k = hulls::block_size(m - b * BLOCK);
        grown = pairs::each_right::<C>(words, left, at, k, target, grown)?;
    }
    Ok(grown)
}

// Puts the meet or the composition of each of n left zones with each of m right zones, in that order, and counts the pairs composed.
pub fn each_pair<C: Combine>(
    words: &mut [i32],
    left: usize,
    n: usize,
    right: usize,
    m: usize,
    target: usize,
    g: Growing,
) -> Result<Growing, Overflow>
    requires { (Operands words.old left n right m target g.count) × (Stands words.old target g) × (g.pairs ≡ 0) }
    ensures grown { GrowsAs (pairs C.op (list_at words.old left n) (list_at words.old right m)) (Counted (Composed C.op) (crossed (list_at words.old left n) (list_at words.old right m))) g words.old target words.new result }
    ensures kept { Kept target slot_words words.old words.new }
{
    let mut hulls = [0i32; HULL_WORDS];
    hulls::write_hulls(words, right, m, &mut hulls);
    let mut grown = g;
    for i in 0..n {
        let at = left + i * ZONE_WORDS;
        grown = each_block::<C>(words, at, right, m, &hulls, target, grown)?;
    }
    Ok(grown)
}

// The meets or the compositions of one zone with each of some others, put into a growing list.
//
// specs/Pairs.antt says what is put for two whole lists, and which pairs are composed; specs/Row.antt what is put for one zone. The zones that
// are combined are tight and inside 0..1,000,000, which meet and composition keep.
#![tactic(auto)]

ghost use Rattle.std.specs.Prelude.{◌≡◌, ◌+◌, ◌≤◌, ◌<◌, length};
ghost use Rattle.words.specs.Words.{zone_words, zone_at};
ghost use Rattle.zone.specs.Zone.{Proper, Touches, compose};
ghost use Rattle.list.specs.Slots.{slot_words, list_at, Kept};
ghost use Rattle.pairs.specs.declared.Operation.{Operation};
ghost use Rattle.pairs.specs.Pairs.{beside};
ghost use Rattle.pairs.specs.Row.{most_pairs, Pairing, PairsAs};
ghost use Rattle.pairs.specs.Combined.{counting, side, CombinedAs};

use growing::Growing;
use list::Overflow;
use words::{END, START, ZONE_WORDS};
use zone::Zone;

// The operations on pairs of zones, as the specs name them. The code has a type for each, below, and no value that says which one is meant.
#[derive(Clone, Copy)]
pub enum Operation {
    Meet,
    Compose,
}

// The code of an operation. The loops over pairs are generic in it, so each operation has loops of its own, and none asks for each pair which
// one it is.
pub trait Combine {
    ghost op: { Operation };

    // The word of a left zone from which the limits stand that must have a time in common with a right zone's starts: those of its starts for a
    // meet, of its ends for a composition.
    fn side() -> usize
        ensures { result ≡ side op };

    // What the operation makes of the zones at `left` and at `right`. They are read anew for each pair, so that no word of them is kept over
    // a put.
    fn combined(words: &[i32], left: usize, right: usize) -> Option<Zone>
        requires { (left + zone_words ≤ length words.now) × (right + zone_words ≤ length words.now) × (Proper 0 1_000_000 (zone_at words.now left)) × (Proper 0 1_000_000 (zone_at words.now right)) }
        ensures { CombinedAs op (zone_at words.now left) (zone_at words.now right) result };

    // The list before a put of what the operation makes of a pair: with one pair more, if it is composed.
    fn count_pair(g: Growing) -> Growing
        requires { g.pairs < most_pairs }
        ensures { result ≡ counting op g };
}

pub struct Meet;

pub struct Compose;

impl Combine for Meet {
    ghost op = { Operation.Meet };

    fn side() -> usize {
        START
    }

    fn combined(words: &[i32], left: usize, right: usize) -> Option<Zone> {
        let z = words::read_zone(words, left);
        let w = words::read_zone(words, right);
        z.meet(w)
    }

    fn count_pair(g: Growing) -> Growing {
        g
    }
}

impl Combine for Compose {
    ghost op = { Operation.Compose };

    fn side() -> usize {
        END
    }

    fn combined(words: &[i32], left: usize, right: usize) -> Option<Zone> {
        if !touching::touches(words, left, right) {
            return None;
        }
        let z = words::read_zone(words, left);
        let w = words::read_zone(words, right);
        compose_touching(z, w)
    }

    fn count_pair(g: Growing) -> Growing {
        Growing {
            pairs: g.pairs + 1,
            ..g
        }
    }
}

// The composition of two zones that have a time in common, an end of the one and a start of the other. The pair loop has no other way to
// a composition.
fn compose_touching(z: Zone, w: Zone) -> Option<Zone>
    requires { (Proper 0 1_000_000 z) × (Proper 0 1_000_000 w) × (Touches z w) }
    ensures { result ≡ compose z w }
{
    z.compose(w)
}

// Puts the meet or the composition of the zone at `left` with each of the m zones from `right` on; an empty one is passed over.
pub fn each_right<C: Combine>(
    words: &mut [i32],
    left: usize,
    right: usize,
    m: usize,
    target: usize,
    g: Growing,
) -> Result<Growing, Overflow>
    requires { Pairing words.old left right m target g }
    ensures grown { PairsAs C.op (beside (zone_at words.old left) (list_at words.old right m)) g words.old target words.new result }
    ensures kept { Kept target slot_words words.old words.new }
{
    let mut grown = g;
    for j in 0..m {
        let Some(v) = C::combined(words, left, right + j * ZONE_WORDS) else {
            continue;
        };
        let mut out = [0i32; ZONE_WORDS];
        words::write_zone(&mut out, 0, v);
        grown = growing::grow_words(words, target, C::count_pair(grown), &out)?;
    }
    Ok(grown)
}

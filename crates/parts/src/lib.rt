// The parts of a zone outside another, of their words: a part breaks one limit of the other zone and keeps to those before it. A
// limit on a quantity is broken by a limit on the negated quantity, whose word stands beside its own.
//
// specs/Parts.antt says which parts there are; proofs/Laws.antt is the page of laws that crates above cite. A limit is named by its place, 0 to 5,
// since its word is what is compared; that a zone can be cut (`Cuttable`) is asked and no type, since a zone is six words of any buffer.
#![tactic(auto)]

ghost use Rattle.std.specs.Prelude.{◌≡◌, cond, ◌<◌, eqb, length};
ghost use Rattle.limit.specs.Limit.{lesser, decode};
ghost use Rattle.zone.specs.Zone.{Proper, opposite};
ghost use Rattle.words.specs.Words.{zone_words, zone_at};
ghost use Rattle.parts.specs.Parts.{side, place, also, keeping, part, room, Cuttable, Breaks, KeepsTo, RoomAs};

use limit::Limit;
use words::ZONE_WORDS;
use zone::Zone;

// The place of the limit on the negated quantity: limits stand in pairs, so the two places differ in the lowest bit.
fn beside(k: usize) -> usize
    requires { k < 6 }
    ensures { result ≡ place (opposite (side k)) }
{
    k ^ 1
}

// The limit of a word in place j, lowered to that of another word if j is place k.
fn limited(word: i32, j: usize, k: usize, other: i32) -> Limit
    ensures { result ≡ cond (eqb j k) (lesser (decode word) (decode other)) (decode word) }
{
    if j == k {
        return Limit::from(limit::lesser(word, other));
    }
    Limit::from(word)
}

// The zone of six words with one more limit in place k, given by its word.
fn also(zone: &[i32; ZONE_WORDS], k: usize, word: i32) -> Zone
    requires { k < 6 }
    ensures { result ≡ also (zone_at zone.now 0) (side k) (decode word) }
{
    Zone {
        start: limited(zone[0], 0, k, word),
        nstart: limited(zone[1], 1, k, word),
        end: limited(zone[2], 2, k, word),
        nend: limited(zone[3], 3, k, word),
        length: limited(zone[4], 4, k, word),
        nlength: limited(zone[5], 5, k, word),
    }
}

// The part of the zone `rest` that breaks limit k of the zone `cut`; None where all of `rest` keeps to it.
pub fn part(rest: &[i32; ZONE_WORDS], cut: &[i32; ZONE_WORDS], k: usize) -> Option<Zone>
    requires { (k < 6) × (Cuttable (zone_at rest.now 0)) × (Proper 0 1_000_000 (zone_at cut.now 0)) }
    ensures value { result ≡ part (zone_at rest.now 0) (zone_at cut.now 0) (side k) }
    ensures meaning { Breaks (zone_at rest.now 0) (zone_at cut.now 0) (side k) result }
{
    if rest[k] <= cut[k] {
        return None;
    }
    also(rest, beside(k), limit::broken(cut[k])).tighten()
}

// Whether limit k of a zone and the one on the negated quantity leave room between them. Where they leave none, no stretch is left.
pub fn has_room(zone: &[i32; ZONE_WORDS], k: usize) -> bool
    requires { (k < 6) × (Cuttable (zone_at zone.now 0)) }
    ensures value { result ≡ room (zone_at zone.now 0) (side k) }
    ensures meaning { RoomAs (zone_at zone.now 0) result }
{
    limit::room(zone[k], zone[beside(k)])
}

// Leaves of the zone `rest` what keeps to limit k of the zone `cut`.
pub fn keep(rest: &mut [i32], cut: &[i32; ZONE_WORDS], k: usize)
    requires { (k < 6) × (Cuttable (zone_at rest.old 0)) × (Proper 0 1_000_000 (zone_at cut.now 0)) × (length rest.old ≡ zone_words) }
    ensures value { zone_at rest.new 0 ≡ keeping (zone_at rest.old 0) (zone_at cut.now 0) (side k) }
    ensures meaning { KeepsTo (zone_at rest.old 0) (zone_at cut.now 0) (side k) (zone_at rest.new 0) }
{
    rest[k] = limit::lesser(rest[k], cut[k]);
}

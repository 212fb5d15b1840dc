// Lists that grow in their slot by puts, with what is counted of them on the way.
//
// specs/Growth.antt says what a list has grown to and whether it has changed. Most zones are put in rising time: one that starts later than
// all of the list lies apart from them, and goes last at once.
#![tactic(auto)]

ghost use Rattle.std.specs.Prelude.{[], ◌∷◌, Some};
ghost use Rattle.zone.specs.Zone.{Ranged};
ghost use Rattle.words.specs.Words.{zone_at};
ghost use Rattle.list.specs.Members.{Apart};
ghost use Rattle.list.specs.Slots.{slot_words, list_at, Kept, InsertAs};
ghost use Rattle.growing.specs.Growth.{Unsurpassed, Stands, Begins, NoPair, GrowsAs};
ghost use Rattle.growing.specs.Steps.{LaterAs, Takes, GrownBy};

use list::Overflow;
use words::ZONE_WORDS;
use zone::Zone;

// How late the zones of a list start, in words: none has an upper limit on start above the one, or on −start below the other.
#[derive(Clone, Copy)]
pub struct Latest {
    pub start: i32,
    pub nstart: i32,
}

// A growing list: its zones, 1 where any put was placed, the pairs that were composed for it, and how late its zones start. The mark
// is no bool, so that no field has a gap behind it: with one the struct is slower to copy. The place of its slot is no field: it is the same from put
// to put.
#[derive(Clone, Copy)]
pub struct Growing {
    pub count: usize,
    pub changed: usize,
    pub pairs: usize,
    pub latest: Latest,
}

// Beyond all words of zones inside 0..1,000,000.
const MOST_WORD: i32 = 2_000_002;

const LEAST_WORD: i32 = -2_000_002;

// A list of no zones, which every zone starts later than.
pub fn nothing() -> Growing
    ensures { Begins 0 result }
{
    Growing {
        count: 0,
        changed: 0,
        pairs: 0,
        latest: Latest {
            start: LEAST_WORD,
            nstart: MOST_WORD,
        },
    }
}

// A list of so many zones that stands already. How late they start is not looked for: no zone is taken to start later, so that the two bounds are
// those of `nothing`, exchanged.
pub fn standing(count: usize) -> Growing
    ensures begins { Begins count result }
    ensures late { Unsurpassed result.latest }
{
    Growing {
        count,
        changed: 0,
        pairs: 0,
        latest: Latest {
            start: MOST_WORD,
            nstart: LEAST_WORD,
        },
    }
}

// Whether the zone of six words w starts later than that: then it lies apart from every zone that does not. Where it is not so, nothing is said.
fn is_later(latest: Latest, w: &[i32; ZONE_WORDS]) -> bool
    ensures { LaterAs latest (zone_at w.now 0) result }
{
    (latest.start < w[0]) & (w[1] < latest.nstart)
}

// How late the zones start with the one of six words w among them.
fn with_zone(latest: Latest, w: &[i32; ZONE_WORDS]) -> Latest
    ensures { Takes latest (zone_at w.now 0) result }
{
    Latest {
        start: limit::greater(latest.start, w[0]),
        nstart: limit::lesser(latest.nstart, w[1]),
    }
}

// Puts the zone of six words w.
fn put(
    words: &mut [i32],
    target: usize,
    g: Growing,
    w: &[i32; ZONE_WORDS],
) -> Result<Option<usize>, Overflow>
    requires { Stands words.old target g }
    ensures { InsertAs (zone_at w.now 0) words.old target g.count words.new result }
{
    if is_later(g.latest, w) {
        return list::insert_apart(words, target, g.count, w);
    }
    list::insert_words(words, target, g.count, w)
}

// The list after a put of the zone of six words w.
fn after_put(
    g: Growing,
    answer: Result<Option<usize>, Overflow>,
    w: &[i32; ZONE_WORDS],
) -> Result<Growing, Overflow>
    ensures { GrownBy g (zone_at w.now 0) answer result }
{
    let Some(count) = answer? else {
        return Ok(g);
    };
    Ok(Growing {
        count,
        changed: 1,
        latest: with_zone(g.latest, w),
        ..g
    })
}

// Puts one zone more, that of six words w, and marks whether it was placed. No pair is composed.
pub fn grow_words(
    words: &mut [i32],
    target: usize,
    g: Growing,
    w: &[i32; ZONE_WORDS],
) -> Result<Growing, Overflow>
    requires { Stands words.old target g }
    ensures grown { GrowsAs (Some (zone_at w.now 0) ∷ []) NoPair g words.old target words.new result }
    ensures kept { Kept target slot_words words.old words.new }
{
    let answer = put(words, target, g, w);
    after_put(g, answer, w)
}

// The same of a zone that lies inside no listed zone and around none: the list is not looked through. It is a function and no parameter, since it asks
// for more.
pub fn grow_apart(
    words: &mut [i32],
    target: usize,
    g: Growing,
    w: &[i32; ZONE_WORDS],
) -> Result<Growing, Overflow>
    requires { (Stands words.old target g) × (Apart (zone_at w.now 0) (list_at words.old target g.count)) }
    ensures grown { GrowsAs (Some (zone_at w.now 0) ∷ []) NoPair g words.old target words.new result }
    ensures kept { Kept target slot_words words.old words.new }
{
    let answer = list::insert_apart(words, target, g.count, w);
    after_put(g, answer, w)
}

// The same of a zone by itself, for which how late it starts is not asked.
pub fn grow(words: &mut [i32], target: usize, g: Growing, z: Zone) -> Result<Growing, Overflow>
    requires { (Stands words.old target g) × (Ranged 1_000_000 z) }
    ensures grown { GrowsAs (Some z ∷ []) NoPair g words.old target words.new result }
    ensures kept { Kept target slot_words words.old words.new }
{
    let mut w = [0i32; ZONE_WORDS];
    words::write_zone(&mut w, 0, z);
    let answer = list::insert_words(words, target, g.count, &w);
    after_put(g, answer, &w)
}

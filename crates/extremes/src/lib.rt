// The earliest and the latest end of the stretches in a list of zones that start at a tick. Nothing is known here of recordings and drills.
//
// specs/Ends.antt says by meaning what the ends of some stretches are, proofs/Meaning.antt that there is one answer. specs/Steps.antt has the answer
// as it is put together from the zones, proofs/Peaks.antt that it is the one that is asked for.
#![tactic(auto)]

ghost use Rattle.std.specs.Prelude.{◌≡◌};
ghost use Rattle.limit.specs.Time.{at_tick};
ghost use Rattle.limit.specs.Limit.{greater};
ghost use Rattle.list.specs.Members.{Lies};
ghost use Rattle.list.specs.Slots.{list_at};
ghost use Rattle.extremes.specs.Ends.{EndsAs};
ghost use Rattle.extremes.specs.Asking.{Askable};
ghost use Rattle.extremes.specs.Steps.{see, above, under, latest, earliest, told};

use limit::Limit;
use words::ZONE_WORDS;
use zone::Zone;

// The earliest or the latest end, in whole ticks: reached by some stretch, or only approached. An `End` of `expression` has the same two cases; this
// type is the crate's own, since nothing is known here of drills.
#[derive(Clone, Copy)]
pub enum Extreme {
    Reached(u32),
    Unreached(u32),
}

// The earliest and the latest end of some stretches.
#[derive(Clone, Copy)]
pub struct Ends {
    pub earliest: Extreme,
    pub latest: Extreme,
}

// What is seen of some stretches: the greatest limits on their ends and on their negated ends.
#[derive(Clone, Copy)]
struct Seen {
    end: Limit,
    nend: Limit,
}

// By the limits' own order: a derived one would put every reached limit before all others.
fn greater(a: Limit, b: Limit) -> Limit
    ensures { result ≡ greater a b }
{
    if a.at_most(b) { b } else { a }
}

// One zone more, or none.
fn see(seen: Option<Seen>, more: Option<Zone>) -> Option<Seen>
    ensures { result ≡ see seen more }
{
    let Some(z) = more else {
        return seen;
    };
    let end = z.end;
    let nend = z.nend;
    let Some(before) = seen else {
        return Some(Seen { end, nend });
    };
    Some(Seen {
        end: greater(before.end, end),
        nend: greater(before.nend, nend),
    })
}

// How far a number is above 0, and how far below.
fn above(v: i32) -> u32
    ensures { result ≡ above v }
{
    v.max(0).unsigned_abs()
}

fn under(v: i32) -> u32
    ensures { result ≡ under v }
{
    v.min(0).unsigned_abs()
}

// The latest end of stretches whose greatest limit on the end is this, and the earliest of those whose greatest limit on the negated end is. They
// differ in the sign of the number: one function for both would take `above` or `under` as a parameter.
fn latest(l: Limit) -> Extreme
    ensures { result ≡ latest l }
{
    match l {
        Limit::AtMost(v) => Extreme::Reached(above(v)),
        Limit::Below(v) => Extreme::Unreached(above(v)),
    }
}

fn earliest(l: Limit) -> Extreme
    ensures { result ≡ earliest l }
{
    match l {
        Limit::AtMost(v) => Extreme::Reached(under(v)),
        Limit::Below(v) => Extreme::Unreached(under(v)),
    }
}

fn told(seen: Option<Seen>) -> Option<Ends>
    ensures { result ≡ told seen }
{
    let all = seen?;
    Some(Ends {
        earliest: earliest(all.nend),
        latest: latest(all.end),
    })
}

// The ends of the stretches from tick `start` that lie in the zones in front of the words, or `None` where there are none. The point at `start`
// composed with a zone is just what starts there of the zone.
pub fn ends_of(words: &[i32], zones: usize, start: u32) -> Option<Ends>
    requires { Askable words.now zones start }
    ensures { EndsAs (Lies (list_at words.now 0 zones) (at_tick start)) result }
{
    let point = Zone::diagonal(start, start);
    let mut seen = None;
    for i in 0..zones {
        let z = words::read_zone(words, i * ZONE_WORDS);
        seen = see(seen, point.compose(z));
    }
    told(seen)
}

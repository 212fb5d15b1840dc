// Zones: sets of stretches of time, each given by six upper limits on start, −start, end, −end, end − start and
// start − end (a difference-bound matrix of three points). The layer knows nothing of recordings or drills.
//
// specs/ says what a zone means; proofs/Laws.antt is the page of laws that crates above cite, beside those of times in
// `limit`. A `requires` is only of ranges, and every tight zone inside ticks 0..1,000,000 meets it (`ranged` in
// proofs/Laws.antt). It (`Ranged`, and `Proper` in the crates above) stands at the functions and not in the type as an invariant, because the words of any buffer are read as a zone
// (`words::read_zone`), and `contains` asks nothing of its zones.
#![tactic(auto)]

ghost use Rattle.std.specs.Prelude.{◌≡◌, ◌≤◌};
ghost use Rattle.limit.specs.Limit.{most_ticks, Small};
ghost use Rattle.zone.specs.Zone.{tighter, tighten, both, meet, across, compose, contains, run, diagonal, everything, limited, band, Ranged, Tightens, Meets, Composes, Contains, IsRun, IsDiagonal, IsEverything, IsBand};

use limit::Limit;

// Ticks from..to, the first no later than the last, that the machine's numbers have room for. The functions that make zones take two numbers:
// they ask for no order, which this type would.
#[derive(Clone, Copy)]
pub struct Ticks {
    pub from: u32,
    pub to: u32,
    pub ghost forward: { from ≤ to },
    pub ghost small: { to ≤ 1_000_000 },
}

// The six limits of a zone; the n stands for "negated": a lower limit is an upper one on the negated quantity.
#[derive(Clone, Copy)]
pub struct Zone {
    pub start: Limit,
    pub nstart: Limit,
    pub end: Limit,
    pub nend: Limit,
    pub length: Limit,
    pub nlength: Limit,
}

impl Zone {
    fn tighter(self) -> Zone
        requires { Ranged most_ticks self }
        ensures { result ≡ tighter self }
    {
        Zone {
            start: self.start.or_sum(self.nlength, self.end),
            nstart: self.nstart.or_sum(self.nend, self.length),
            end: self.end.or_sum(self.length, self.start),
            nend: self.nend.or_sum(self.nstart, self.nlength),
            length: self.length.or_sum(self.end, self.nstart),
            nlength: self.nlength.or_sum(self.start, self.nend),
        }
    }

    // The same members with limits that cannot be lowered; None where there is no member. Each pair of limits is asked by itself, and the first
    // that leaves no room settles it.
    pub fn tighten(self) -> Option<Zone>
        requires { Ranged most_ticks self }
        ensures value { result ≡ tighten self }
        ensures meaning { Tightens self result }
    {
        let t = self.tighter();
        if !t.start.leaves_room(t.nstart) {
            return None;
        }
        if !t.end.leaves_room(t.nend) {
            return None;
        }
        if !t.length.leaves_room(t.nlength) {
            return None;
        }
        Some(t)
    }

    // The lesser limit on each side.
    fn both(self, other: Zone) -> Zone
        requires { (Ranged most_ticks self) × (Ranged most_ticks other) }
        ensures { result ≡ both self other }
    {
        Zone {
            start: self.start.lesser(other.start),
            nstart: self.nstart.lesser(other.nstart),
            end: self.end.lesser(other.end),
            nend: self.nend.lesser(other.nend),
            length: self.length.lesser(other.length),
            nlength: self.nlength.lesser(other.nlength),
        }
    }

    // The stretches of both. Zones whose starts lie apart, as most of two long lists do, have none at once.
    pub fn meet(self, other: Zone) -> Option<Zone>
        requires { (Ranged most_ticks self) × (Ranged most_ticks other) }
        ensures value { result ≡ meet self other }
        ensures meaning { Meets self other result }
    {
        if !other.nstart.leaves_room(self.start) {
            return None;
        }
        if !other.start.leaves_room(self.nstart) {
            return None;
        }
        self.both(other).tighten()
    }

    // The limits on start and end that a cut between the two zones leaves. A sum has the other zone's limit first, which is
    // the faster order where that zone was just read from words.
    fn across(self, other: Zone) -> Zone
        requires { (Ranged most_ticks self) × (Ranged most_ticks other) }
        ensures { result ≡ across self other }
    {
        Zone {
            start: self.start.or_sum(other.start, self.nlength),
            nstart: self.nstart.or_sum(other.nstart, self.length),
            end: other.end.or_sum(other.length, self.end),
            nend: other.nend.or_sum(other.nlength, self.nend),
            length: other
                .length
                .plus(self.length)
                .or_sum(other.end, self.nstart),
            nlength: other
                .nlength
                .plus(self.nlength)
                .or_sum(other.nend, self.start),
        }
    }

    // The stretches that a cut divides into one of this zone and one of the other. Nothing is left to tighten. Two tests, as in `meet`:
    // where no end is a start, no limit is summed.
    pub fn compose(self, other: Zone) -> Option<Zone>
        requires { (Ranged most_ticks self) × (Ranged most_ticks other) }
        ensures value { result ≡ compose self other }
        ensures meaning { Composes self other result }
    {
        if !other.nstart.leaves_room(self.end) {
            return None;
        }
        if !other.start.leaves_room(self.nend) {
            return None;
        }
        Some(self.across(other))
    }

    // Whether every stretch of the other zone, which is tight, lies in this one.
    pub fn contains(self, other: Zone) -> bool
        ensures value { result ≡ contains self other }
        ensures meaning { Contains self other result }
    {
        other.start.at_most(self.start)
            & other.nstart.at_most(self.nstart)
            & other.end.at_most(self.end)
            & other.nend.at_most(self.nend)
            & other.length.at_most(self.length)
            & other.nlength.at_most(self.nlength)
    }

    // The stretches within ticks from..to that have a length: of all stretches those that start before the last tick and end after the first.
    pub fn run(from: u32, to: u32) -> Zone
        requires { (from ≤ most_ticks) × (to ≤ most_ticks) }
        ensures value { result ≡ run from to }
        ensures meaning { IsRun from to result }
    {
        Zone {
            start: Limit::less(to),
            nend: Limit::more(from),
            nlength: Limit::Below(0),
            ..Zone::everything(from, to)
        }
    }

    // The stretches within ticks from..to that have none: all stretches with a limit of 0 on their length.
    pub fn diagonal(from: u32, to: u32) -> Zone
        requires { (from ≤ most_ticks) × (to ≤ most_ticks) }
        ensures value { result ≡ diagonal from to }
        ensures meaning { IsDiagonal from to result }
    {
        Zone {
            length: Limit::AtMost(0),
            ..Zone::everything(from, to)
        }
    }

    // All stretches within ticks from..to.
    pub fn everything(from: u32, to: u32) -> Zone
        requires { (from ≤ most_ticks) × (to ≤ most_ticks) }
        ensures value { result ≡ everything from to }
        ensures meaning { IsEverything from to result }
    {
        Zone {
            start: Limit::most(to),
            nstart: Limit::least(from),
            end: Limit::most(to),
            nend: Limit::least(from),
            length: Limit::most(to).plus(Limit::least(from)),
            nlength: Limit::AtMost(0),
        }
    }

    // This zone with two limits more, on end − start and on start − end.
    fn limited(self, longest: Limit, shortest: Limit) -> Zone
        requires { (Ranged most_ticks self) × (Small most_ticks longest) × (Small most_ticks shortest) }
        ensures { result ≡ limited self longest shortest }
    {
        Zone {
            length: self.length.lesser(longest),
            nlength: self.nlength.lesser(shortest),
            ..self
        }
    }

    // The stretches within ticks from..to whose length keeps to a limit on end − start and one on start − end; None
    // where there is none. Where some length is left, only the latest start and the earliest end are still to be tightened.
    pub fn band(from: u32, to: u32, longest: Limit, shortest: Limit) -> Option<Zone>
        requires { (from ≤ most_ticks) × (to ≤ most_ticks) × (Small most_ticks longest) × (Small most_ticks shortest) }
        ensures value { result ≡ band from to longest shortest }
        ensures meaning { IsBand from to longest shortest result }
    {
        let z = Zone::everything(from, to).limited(longest, shortest);
        if !z.length.leaves_room(z.nlength) {
            return None;
        }
        Some(Zone {
            start: z.start.or_sum(z.nlength, z.end),
            nend: z.nend.or_sum(z.nstart, z.nlength),
            ..z
        })
    }
}

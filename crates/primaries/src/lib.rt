// The lists of the parts of a drill that have no operands, in a slot of a lent work buffer: of `_`, and of a letter with its sign.
//
// The crate `meaning` says which list each has; `purse` how a slot holds it. None has a round: those told are left.
#![tactic(auto)]

ghost use Rattle.std.specs.Prelude.{◌≡◌, [], ◌∷◌, ◌+◌, ◌-◌, ◌≤◌, ◌<◌, min, length, Some};
ghost use Rattle.limit.specs.Limit.{most_ticks};
ghost use Rattle.zone.specs.Zone.{diagonal};
ghost use Rattle.list.specs.Insert.{insert_each};
ghost use Rattle.list.specs.Slots.{slot_words, Kept};
ghost use Rattle.recording.specs.Reading.{ticks};
ghost use Rattle.runs.specs.Levels.{Shows};
ghost use Rattle.runs.specs.Search.{other};
ghost use Rattle.expression.specs.Expression.{literal};
ghost use Rattle.meaning.specs.Lists.{ended, Letter, Moments, Evaluates};
ghost use Rattle.purse.specs.Purse.{EvaluatedAs};
ghost use Rattle.primaries.specs.Spelling.{mark_of, Spelling};

use expression::Sign;
use purse::{Listed, Stopped};
use recording::Recording;
use runs::{Cursor, Level, Run};
use words::ZONE_WORDS;
use zone::{Ticks, Zone};

// The ticks from..to of a recording that was read: where a drill is evaluated.
#[derive(Clone, Copy)]
pub struct Window<'a> {
    pub recording: Recording<'a>,
    pub from: u32,
    pub to: u32,
    pub ghost some: { from < to },
    pub ghost within: { to ≤ ticks recording.bytes.now },
}

impl<'a> Window<'a> {
    // All ticks of the recording.
    #[tactic(auto, using(recording::proofs::Refusals::read_ticks, recording::proofs::Refusals::read_end))]
    pub fn whole(recording: &Recording<'a>) -> Window<'a>
        ensures bytes { result.recording.bytes.now ≡ recording.now.bytes.now }
        ensures size { result.recording.size ≡ recording.now.size }
        ensures from { result.from ≡ 0 }
        ensures to { result.to ≡ recording.now.size.ticks }
    {
        Window {
            recording: *recording,
            from: 0,
            to: recording.size.ticks,
        }
    }

    // Its ticks.
    #[tactic(auto, using(recording::proofs::Refusals::read_ticks, recording::proofs::Refusals::read_end))]
    pub fn ticks(&self) -> Ticks
        ensures from { result.from ≡ self.now.from }
        ensures to { result.to ≡ self.now.to }
    {
        Ticks {
            from: self.from,
            to: self.to,
        }
    }

    // The window with the ticks beside it, where the recording has them: an event at its edge sees both.
    #[tactic(auto, using(recording::proofs::Refusals::read_ticks, recording::proofs::Refusals::read_end))]
    fn around(&self) -> Window<'a>
        ensures bytes { result.recording.bytes.now ≡ self.now.recording.bytes.now }
        ensures from { result.from ≡ self.now.from - 1 }
        ensures to { result.to ≡ min (self.now.to + 1) (ticks self.now.recording.bytes.now) }
    {
        Window {
            recording: self.recording,
            from: self.from.saturating_sub(1),
            to: (self.to + 1).min(self.recording.size.ticks),
        }
    }
}

// `_`: the diagonal of the ticks, in the slot at `base`.
pub fn point(work: &mut [i32], base: usize, ticks: Ticks, told: u64) -> Result<Listed, Stopped>
    requires { base + slot_words ≤ length work.old }
    ensures value { EvaluatedAs (λ v. v ≡ ended (insert_each (Some (diagonal ticks.from ticks.to) ∷ []) [])) told work.new base result }
    ensures kept { Kept base slot_words work.old work.new }
{
    let diagonal = Zone::diagonal(ticks.from, ticks.to);
    let Ok(g) = growing::grow(work, base, growing::nothing(), diagonal) else {
        return Err(Stopped::Overflow { left: told }); // never: an empty list has room
    };
    Ok(Listed {
        count: g.count,
        left: told,
    })
}

// What is put for each run of ticks. An enum, no closure: the contracts say by its name what is put for a run.
#[derive(Clone, Copy)]
enum Mark {
    // The stretches in it.
    Inside,
    // The moment when it ends.
    End,
}

// The zone of a run that was looked for up to tick `to`; one that lasts up to there has no end.
fn mark_of(mark: Mark, run: Run, to: u32) -> Option<Zone>
    requires { (run.start ≤ most_ticks) × (run.end ≤ most_ticks) }
    ensures { result ≡ mark_of mark to run }
{
    match mark {
        Mark::Inside => Some(Zone::run(run.start, run.end)),
        Mark::End => {
            if run.end < to {
                Some(Zone::diagonal(run.end, run.end))
            } else {
                None
            }
        }
    }
}

// The maximal runs of the channel at the level, put in rising time as their marks, in the slot at `base`.
fn spell(
    window: &Window<'_>,
    channel: u8,
    level: Level,
    mark: Mark,
    work: &mut [i32],
    base: usize,
    told: u64,
) -> Result<Listed, Stopped>
    requires { base + slot_words ≤ length work.old }
    ensures value { EvaluatedAs (Spelling mark (Shows window.now.recording.bytes.now channel level) window.now.from window.now.to) told work.new base result }
    ensures kept { Kept base slot_words work.old work.new }
{
    let mut cursor = Cursor { change: 0 };
    let mut grown = growing::nothing();
    while let Some((run, onward)) = runs::next_run(
        &window.recording,
        channel,
        level,
        window.from,
        window.to,
        cursor,
    ) {
        cursor = onward;
        let Some(z) = mark_of(mark, run, window.to) else {
            continue;
        };
        let mut out = [0i32; ZONE_WORDS];
        words::write_zone(&mut out, 0, z);
        let Ok(next) = growing::grow_words(work, base, grown, &out) else {
            return Err(Stopped::Overflow { left: told });
        };
        grown = next;
    }
    Ok(Listed {
        count: grown.count,
        left: told,
    })
}

// A letter or `!`: the maximal runs of its channel at the level that it asks for, in the slot at `base`.
fn letter(
    window: &Window<'_>,
    channel: u8,
    level: Level,
    work: &mut [i32],
    base: usize,
    told: u64,
) -> Result<Listed, Stopped>
    requires { base + slot_words ≤ length work.old }
    ensures value { EvaluatedAs (Letter (Shows window.now.recording.bytes.now channel level) window.now.from window.now.to) told work.new base result }
    ensures kept { Kept base slot_words work.old work.new }
{
    spell(window, channel, level, Mark::Inside, work, base, told)
}

// `+` or `-` and a letter: the moments when its channel leaves the level, in the slot at `base`. They are the ends of the runs.
fn moments(
    window: &Window<'_>,
    channel: u8,
    was: Level,
    work: &mut [i32],
    base: usize,
    told: u64,
) -> Result<Listed, Stopped>
    requires { base + slot_words ≤ length work.old }
    ensures value { EvaluatedAs (Moments (Shows window.now.recording.bytes.now channel was) (Shows window.now.recording.bytes.now channel (other was)) window.now.from window.now.to) told work.new base result }
    ensures kept { Kept base slot_words work.old work.new }
{
    spell(&window.around(), channel, was, Mark::End, work, base, told)
}

// A letter with its sign, in the slot at `base`.
pub fn literal(
    window: &Window<'_>,
    channel: u8,
    sign: Sign,
    work: &mut [i32],
    base: usize,
    told: u64,
) -> Result<Listed, Stopped>
    requires { base + slot_words ≤ length work.old }
    ensures value { EvaluatedAs (Evaluates (Shows window.now.recording.bytes.now) window.now.from window.now.to (literal sign channel)) told work.new base result }
    ensures kept { Kept base slot_words work.old work.new }
{
    match sign {
        Sign::High => letter(window, channel, Level::High, work, base, told),
        Sign::Low => letter(window, channel, Level::Low, work, base, told),
        Sign::Rise => moments(window, channel, Level::Low, work, base, told),
        Sign::Fall => moments(window, channel, Level::High, work, base, told),
    }
}

// Runs of ticks in which a channel of a recording has a level: `next_run` gives them one after the other.
#![tactic(auto)]

ghost use Rattle.std.specs.Prelude.{◌≡◌, ◌||◌, ◌+◌, ◌≤◌, ◌<◌, min, max, leb, ltb};
ghost use Rattle.recording.specs.Reading.{ticks as ticksOf};
ghost use Rattle.recording.specs.Changes.{begins as beginsAt};
ghost use Rattle.runs.specs.Levels.{level_in};
ghost use Rattle.runs.specs.Scan.{NextRun};
ghost use Rattle.runs.specs.Search.{leaves_at, Sought};

use recording::Recording;

// A level of a channel. The channel stays a number beside it: the text of a drill has it before the level is known.
#[derive(Clone, Copy, PartialEq, Eq)]
pub enum Level {
    High,
    Low,
}

// A run of ticks, from `start` to before `end`.
#[derive(Clone, Copy)]
pub struct Run {
    pub start: u32,
    pub end: u32,
}

// A place among the changes. Change 0 is the time before the first one. Callers start there and pass on what they get:
// which change a cursor names is free, and only its tick is promised. A cursor and no `Iterator`: the contract says of each call which run is the next.
#[derive(Clone, Copy)]
pub struct Cursor {
    pub change: usize,
}

// The level of a channel in a change's levels; a channel beyond the sixteenth is low.
#[tactic(auto, using(crate::proofs::Levels::no_bit), unfolding(crate::specs::Levels::level_in))]
fn level_in(word: u32, channel: u8) -> Level
    requires { word < 65536 }
    ensures { result ≡ level_in word channel }
{
    if channel < 16 && (word >> channel) % 2 == 1 {
        Level::High
    } else {
        Level::Low
    }
}

// Change j leaves the channel at the level; before the first change it has none.
#[tactic(auto, unfolding(crate::specs::Search::leaves_at))]
fn leaves_at(recording: &Recording<'_>, channel: u8, level: Level, j: usize) -> bool
    requires { j ≤ recording.now.size.changes }
    ensures { result ≡ leaves_at recording.now.bytes.now channel level j }
{
    j > 0 && level_in(recording.levels(j), channel) == level
}

// Change i leaves its levels for some tick of from..to, or `to` comes before it.
fn reaches(recording: &Recording<'_>, from: u32, to: u32, i: usize) -> bool
    requires { i ≤ recording.now.size.changes }
    ensures { result ≡ (leb to (beginsAt recording.now.bytes.now i) || ltb (max from (beginsAt recording.now.bytes.now i)) (min to (beginsAt recording.now.bytes.now (i + 1)))) }
{
    let a = recording.begins(i);
    to <= a || from.max(a) < to.min(recording.begins(i + 1))
}

// The first change from j on that gives ticks of from..to the level, or another one where it is not wanted.
fn seek(
    recording: Recording<'_>, // itself, so that the loop has its fields at hand
    channel: u8,
    level: Level,
    from: u32,
    to: u32,
    j: usize,
    wanted: bool, // no step to choose: what `leaves_at` has to answer
) -> usize
    requires { to ≤ ticksOf recording.bytes.now }
    ensures { Sought recording.entry.bytes.now channel level from to j wanted result }
{
    let end = recording.size.changes + 1;
    for i in j..end {
        // Most changes are of other channels, and a tick takes divisions.
        if leaves_at(&recording, channel, level, i) == wanted && reaches(&recording, from, to, i) {
            return i;
        }
    }
    j.max(end)
}

// The next maximal run of a channel at a level within the ticks from..to, from a cursor on, and the cursor behind it. A cursor at change 0
// starts at `from`.
pub fn next_run(
    recording: &Recording<'_>,
    channel: u8,
    level: Level,
    from: u32,
    to: u32,
    cursor: Cursor,
) -> Option<(Run, Cursor)>
    ensures { NextRun recording.now.bytes.now channel level from to cursor result }
{
    let end = to.min(recording.size.ticks);
    let first = seek(*recording, channel, level, from, end, cursor.change, true);
    let a = recording.begins(first);
    if end <= a {
        return None;
    }
    let past = seek(*recording, channel, level, from, end, first + 1, false);
    let run = Run {
        start: from.max(a),
        end: end.min(recording.begins(past)),
    };
    Some((run, Cursor { change: past }))
}

// The drill finder: a recording, a drill and two lent buffers in; an outcome and the listed zones out. `find` is the call, and `find_within` the same
// call with a limit on rounds; `outcome` has what they return, and gives back the words of the listed zones.
//
// specs/Demands.antt is the page to read: the three demands, one clause each in the contract of a call. specs/Outcome.antt of `calls` has the
// outcome of `find` and both buffers after it, specs/Within.antt those of `find_within`. proofs/Demands.antt proves the demands of every call that
// has the defined outcome.
#![tactic(auto)]

ghost use Rattle.finder.specs.Demands.{Demand1, Demand1Within, Demand2, Demand3};

use outcome::Outcome;

// The bytes of the largest recording, and the work words that a call needs.
pub const LARGEST: usize = 32_768;

pub const WORK_WORDS: usize = delivery::WORK_WORDS;

// More rounds than any drill begins: a call without a limit is told so many.
const ALL_ROUNDS: u64 = 65_544_388_608;

// The inputs, the two lent buffers and the rounds left are parameters of their own, as C lends them to the exported calls, which hand them on.

// Lists every stretch of the recording that fits the drill, as zones in front of the answer buffer, or refuses. It may begin as many rounds as
// are left, and leaves those that it does not finish.
pub fn find_within(
    recording: &[u8],
    drill: &[u8],
    left: &mut u64,
    answer: &mut [i32],
    work: &mut [i32],
) -> Outcome
    ensures demand1 { Demand1Within recording.now drill.now left.old answer.old work.old result left.new answer.new work.new }
    ensures demand2 { Demand2 recording.now drill.now result answer.new }
    ensures demand3 { Demand3 recording.now drill.now result }
{
    let recording = recording::read(recording, LARGEST).map_err(calls::recording_refusal)?;
    calls::find_in(&recording, drill, left, answer, work)
}

// Lists every stretch of the recording that fits the drill, as zones in front of the answer buffer, or refuses.
pub fn find(recording: &[u8], drill: &[u8], answer: &mut [i32], work: &mut [i32]) -> Outcome
    ensures demand1 { Demand1 recording.now drill.now answer.old work.old result answer.new work.new }
    ensures demand2 { Demand2 recording.now drill.now result answer.new }
    ensures demand3 { Demand3 recording.now drill.now result }
{
    let mut left = ALL_ROUNDS;
    find_within(recording, drill, &mut left, answer, work)
}

// What a call comes to: which outcome it has, and what both buffers hold afterwards. `find_in` is the part of a call that comes after
// the recording is read, up to the delivered list; it is told the rounds left.
//
// specs/Outcome.antt has the causes of a refusal, specs/Outcome.antt of the crate `outcome` what each outcome returns and leaves, and
// specs/Buffers.antt of `delivery` what the buffers hold; specs/Causes.antt says which cause of a list is the first. specs/Within.antt has the
// call that is told the rounds left.
#![tactic(auto)]

ghost use Rattle.std.specs.Prelude.{◌≡◌, ◌*◌, ◌≤◌, min, length, Ok};
ghost use Rattle.recording.specs.Reading.{ReadingAs};
ghost use Rattle.calls.specs.Outcome.{largest};
ghost use Rattle.calls.specs.Refusals.{recording_refusal};
ghost use Rattle.calls.specs.Steps.{drill_refusal};
ghost use Rattle.calls.specs.Within.{WithinAs};

use outcome::{Outcome, Refusal};
use recording::Recording;

// The refusal of a call by what is wrong with its recording. No `From`: both types are of crates below, which know nothing of one another.
pub fn recording_refusal(fault: recording::Fault) -> Refusal
    ensures { result ≡ recording_refusal fault }
{
    match fault {
        recording::Fault::Length => Refusal::RecordingLength,
        recording::Fault::Head => Refusal::RecordingHead,
        recording::Fault::Change => Refusal::RecordingChange,
    }
}

// The refusal of a call by what is wrong with its drill.
fn drill_refusal(fault: parser::Fault) -> Refusal
    ensures { result ≡ drill_refusal fault }
{
    match fault {
        parser::Fault::WrongLength => Refusal::DrillLength,
        parser::Fault::NoForm => Refusal::DrillForm,
        parser::Fault::WrongLetter => Refusal::DrillLetter,
        parser::Fault::WrongRange => Refusal::DrillRange,
        parser::Fault::TooDeep => Refusal::DrillDepth,
    }
}

// The drill read into so many nodes, and worked out on a recording that has been read.
fn with_nodes<const N: usize>(
    recording: &Recording<'_>,
    drill: &[u8],
    left: &mut u64,
    answer: &mut [i32],
    work: &mut [i32],
) -> Outcome
    requires read { ReadingAs largest recording.now.bytes.now (Ok recording.now.size) }
    requires enough { min (length drill.now) 255 * 4 ≤ N }
    requires few { N ≤ 1020 }
    ensures { WithinAs recording.now.bytes.now drill.now left.old answer.old work.old result left.new answer.new work.new }
{
    let mut nodes = [0u32; N];
    let channels = usize::from(recording.size.channels);
    let root = parser::parse(drill, channels, &mut nodes).map_err(drill_refusal)?;
    Ok(delivery::work_out(recording, &nodes, root, left, answer, work)?)
}

// The outcome of a call whose recording has been read, with nodes of its own for the drill. An array is zeroed for each call, and
// most drills are short.
pub fn find_in(
    recording: &Recording<'_>,
    drill: &[u8],
    left: &mut u64,
    answer: &mut [i32],
    work: &mut [i32],
) -> Outcome
    requires { ReadingAs largest recording.now.bytes.now (Ok recording.now.size) }
    ensures { WithinAs recording.now.bytes.now drill.now left.old answer.old work.old result left.new answer.new work.new }
{
    if drill.len() < 16 {
        return with_nodes::<60>(recording, drill, left, answer, work);
    }
    if drill.len() < 64 {
        return with_nodes::<252>(recording, drill, left, answer, work);
    }
    with_nodes::<1020>(recording, drill, left, answer, work)
}

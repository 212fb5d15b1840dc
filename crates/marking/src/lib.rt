// The sheet of a recording and a drill: a call of the finder on buffers of its own, and the text of its outcome.
#![tactic(auto)]

ghost use Rattle.std.specs.Prelude.{◌≡◌, take, drop};
ghost use Rattle.io.specs.Counts.{IsPrefixLen};
ghost use Rattle.marking.specs.Marking.{MarkedAs};

use finder::WORK_WORDS;
use list::SLOT_WORDS;
use outcome::Returned;

// Writes the sheet to the front of `out`, and answers its length.
pub fn sheet_of(recording: &[u8], drill: &[u8], out: &mut [u8; sheet::LONGEST]) -> usize
    ensures sheet { MarkedAs recording.now drill.now (take result out.new) }
    ensures count { IsPrefixLen result out.new }
    ensures rest { drop result out.new ≡ drop result out.old }
{
    let mut answer = [0i32; SLOT_WORDS];
    let mut work = [0i32; WORK_WORDS];
    let outcome = finder::find(recording, drill, &mut answer, &mut work);
    let told = Returned::from(outcome);
    // The front is told its own zones, and no sheet is longer than the buffer.
    sheet::text(outcome, outcome::front(&answer, told.zones), out).unwrap()
}

// A lesson: the drills of a sheet run in order over one recording, each with rounds of its own, and the text of their results.
//
// specs/Lessons.antt says what is printed and what both lent buffers hold afterwards; the crate `lines` which drills a text has, and `results` what
// each of them prints.
#![tactic(auto)]

ghost use Rattle.std.specs.Prelude.{◌≡◌, List, ℕ, ◌≤◌, length, take, drop};
ghost use Rattle.io.specs.Counts.{IsPrefixLen};
ghost use Rattle.lines.specs.Taken.{store_bytes, CountedAs};
ghost use Rattle.lessons.specs.Lessons.{longest_lesson, Demand1Lesson};
ghost use Rattle.lessons.specs.Steps.{JudgedAs};

use finder::LARGEST;
use outcome::Refusal;
use text::Text;

// Room for all that a lesson prints: eight results, each behind a line with its number.
pub const LONGEST: usize = 98_320;

// What a lesson comes to: 0, or the number that refuses it; and how many bytes are printed. A refused lesson prints its refusal, so that both
// stand beside one another, and the number is what C is given.
#[derive(Clone, Copy)]
pub struct Lesson {
    pub number: u32,
    pub size: usize,
}

// What is known before any drill: how many there are, or the refusal that is printed alone. The recording is judged before the sheet.
fn judge(recording: &[u8], sheet: Option<usize>) -> Result<usize, Refusal>
    ensures { (text store : List ℕ) → CountedAs text store sheet → JudgedAs recording.now text store result }
{
    recording::read(recording, LARGEST).map_err(calls::recording_refusal)?;
    sheet.ok_or(Refusal::SheetForm)
}

// Holds the lesson of a sheet whose drills stand in the store, and writes what is printed to the front of `out`; the bytes behind it stay as
// they were.
pub fn hold(
    recording: &[u8],
    sheet: Option<usize>,
    store: &[u8],
    answer: &mut [i32],
    work: &mut [i32],
    out: &mut [u8],
) -> Lesson
    requires { ((text : List ℕ) × CountedAs text store.now sheet) × (store_bytes ≤ length store.now) × (longest_lesson ≤ length out.old) }
    ensures lesson { (text : List ℕ) → CountedAs text store.now sheet → Demand1Lesson recording.now text answer.old work.old result.number (take result.size out.new) answer.new work.new }
    ensures count { IsPrefixLen result.size out.new }
    ensures rest { drop result.size out.new ≡ drop result.size out.old }
{
    // There is room for either text, so a length is always written.
    match judge(recording, sheet) {
        Err(refusal) => {
            let mut text = Text::begin(out);
            sheet::append(&mut text, Err(refusal), outcome::front(answer, 0));
            Lesson {
                number: refusal.number(),
                size: text.written.unwrap_or(0),
            }
        }
        Ok(n) => {
            let written = results::results(recording, store, n, answer, work, out);
            Lesson {
                number: 0,
                size: written.unwrap_or(0),
            }
        }
    }
}

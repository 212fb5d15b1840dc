// The finder for programs in other languages: its calls on numbers and slices alone, with what `finder`, `lessons` and `outcome` promise
// of them. What they take and answer is the C interface: `zikpasho_find` and `zikpasho_within` stay two functions, and what is returned goes
// into a number and lent places.
#![tactic(auto)]

ghost use Rattle.std.specs.Prelude.{◌≡◌, ◌∷◌, ◌≤◌, ◌<◌, length, drop};
ghost use Rattle.outcome.specs.Outcome.{front_of};
ghost use Rattle.lessons.specs.Lessons.{longest_lesson};
ghost use Rattle.exports.specs.Exports.{Called, Uncalled, CalledWithin, UncalledWithin, CalledLesson, UncalledLesson};

use outcome::Returned;

// What no refusal has for its number: no call was made. C is given numbers alone.
const NO_CALL: u32 = u32::MAX;

// Puts the zones and the rounds that are returned into the first two counts, and answers the number.
fn report(returned: Returned, counts: &mut [u64]) -> u32
    requires { 2 ≤ length counts.old }
    ensures number { result ≡ returned.number }
    ensures counts { counts.new ≡ returned.zones ∷ returned.rounds ∷ drop 2 counts.old }
{
    counts[0] = returned.zones as u64;
    counts[1] = returned.rounds;
    returned.number
}

// `finder::find`, with its number as the answer and its zones and rounds in the first two counts. Where there is no room
// for two counts no call is made, and the answer says so.
#[unsafe(no_mangle)]
pub extern "C" fn zikpasho_find(
    recording: &[u8],
    drill: &[u8],
    answer: &mut [i32],
    work: &mut [i32],
    counts: &mut [u64],
) -> u32
    ensures call { 2 ≤ length counts.old → Called recording.now drill.now answer.old work.old counts.old result answer.new work.new counts.new }
    ensures none { length counts.old < 2 → Uncalled answer.old work.old counts.old result answer.new work.new counts.new }
{
    if counts.len() < 2 {
        return NO_CALL;
    }
    let told = Returned::from(finder::find(recording, drill, answer, work));
    report(told, counts)
}

// `finder::find_within`, which is told the rounds left and gives back those left after it in one place; its number is the answer, its zones and
// rounds the first two counts. Where there is no room for two counts no call is made, and the answer says so.
#[unsafe(no_mangle)]
pub extern "C" fn zikpasho_within(
    recording: &[u8],
    drill: &[u8],
    left: &mut u64,
    answer: &mut [i32],
    work: &mut [i32],
    counts: &mut [u64],
) -> u32
    ensures call { 2 ≤ length counts.old → CalledWithin recording.now drill.now left.old answer.old work.old counts.old result left.new answer.new work.new counts.new }
    ensures none { length counts.old < 2 → UncalledWithin left.old answer.old work.old counts.old result left.new answer.new work.new counts.new }
{
    if counts.len() < 2 {
        return NO_CALL;
    }
    let got = Returned::from(finder::find_within(recording, drill, left, answer, work));
    report(got, counts)
}

// A whole lesson: `lessons::hold` on the lines of a text. What the program `lesson` prints stands in front of `out`, with its length in `size`;
// the answer is 0, 1, 2, 3 or 12. Where `out` has no room for the longest lesson no call is made, and the answer says so.
#[unsafe(no_mangle)]
pub extern "C" fn zikpasho_lesson(
    recording: &[u8],
    text: &[u8],
    answer: &mut [i32],
    work: &mut [i32],
    out: &mut [u8],
    size: &mut u64,
) -> u32
    ensures call { longest_lesson ≤ length out.old → CalledLesson recording.now text.now answer.old work.old out.old result answer.new work.new out.new size.new }
    ensures none { length out.old < longest_lesson → UncalledLesson answer.old work.old out.old size.old result answer.new work.new out.new size.new }
{
    if out.len() < lessons::LONGEST {
        return NO_CALL;
    }
    let mut store = [0u8; lines::STORE_BYTES];
    let sheet = lines::lines_of(text, &mut store);
    let held = lessons::hold(recording, sheet, &store, answer, work, out);
    *size = held.size as u64;
    held.number
}

// The number of words of `outcome::front`, which starts where the answer does.
#[unsafe(no_mangle)]
pub extern "C" fn zikpasho_front(answer: &[i32], zones: usize) -> usize
    ensures { result ≡ length (front_of answer.now zones) }
{
    let front = outcome::front(answer, zones);
    front.len()
}

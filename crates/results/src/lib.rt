// The results of drills that are run in order over one recording, each with rounds of its own and the buffers that the one before it left, as text.
//
// specs/Results.antt says what is printed; the crate `lines` how a store holds the drills.
#![tactic(auto)]

ghost use Rattle.std.specs.Prelude.{◌≤◌, ◌<◌, length};
ghost use Rattle.lines.specs.Lines.{most_lines};
ghost use Rattle.lines.specs.Taken.{store_bytes};
ghost use Rattle.results.specs.Results.{AllPrinted};
ghost use Rattle.results.specs.Steps.{ResultPrinted};

use outcome::Returned;
use text::Text;

// The rounds that each drill has for itself.
const PURSE: u64 = 100_000;

// One drill's result behind the text so far: a line with its number, and the sheet of its call, which is told the rounds left. What it leaves of
// them is not said.
fn result(
    recording: &[u8],
    drill: &[u8],
    number: u64,
    left: &mut u64,
    answer: &mut [i32],
    work: &mut [i32],
    text: &mut Text,
)
    requires { number < 10 }
    ensures { ResultPrinted recording.now drill.now number left.old answer.old work.old answer.new work.new text.old text.new }
{
    let outcome = finder::find_within(recording, drill, left, answer, work);
    text.decimal(number);
    text.put(b'\n');
    let told = Returned::from(outcome);
    sheet::append(text, outcome, outcome::front(answer, told.zones));
}

// The results of the n drills in the store with their numbers, from the front of `out`: each drill has all of its rounds, and finds both buffers as
// the one before it left them. Of a store that holds no n drills nothing is said. The count is no part of the store: `lines_of` answers none where a
// text is no sheet.
pub fn results(
    recording: &[u8],
    store: &[u8],
    n: usize,
    answer: &mut [i32],
    work: &mut [i32],
    out: &mut [u8],
) -> Option<usize>
    requires { (n ≤ most_lines) × (store_bytes ≤ length store.now) }
    ensures { AllPrinted recording.now store.now n answer.old work.old answer.new work.new out.old out.new result }
{
    let mut left = PURSE;
    let mut text = Text::begin(out);
    for k in 0..n {
        let drill = lines::line(store, k);
        result(
            recording,
            drill,
            k as u64 + 1,
            &mut left,
            answer,
            work,
            &mut text,
        );
        left = PURSE; // The next drill has its own: nothing is passed on.
    }
    text.written
}

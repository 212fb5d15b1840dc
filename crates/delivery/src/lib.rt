// A stored drill worked out in the two lent buffers of a call: its list is evaluated in the work buffer and delivered to the front of the answer, and
// the work buffer is cleared.
//
// specs/Working.antt has what `work_out` comes to, and specs/Buffers.antt what both buffers then hold.
#![tactic(auto)]

ghost use Rattle.std.specs.Prelude.{◌≡◌, ◌*◌, ◌≤◌, length};
ghost use Rattle.words.specs.Words.{zone_words};
ghost use Rattle.list.specs.Slots.{list_at};
ghost use Rattle.evaluation.specs.Evaluating.{Rooted};
ghost use Rattle.delivery.specs.Buffers.{room, words, fronted, cleared};
ghost use Rattle.delivery.specs.Steps.{InFront, comes_to, left_of, answer_after};
ghost use Rattle.delivery.specs.Working.{refusal_of, Works};

use outcome::{Finished, Refusal};
use primaries::Window;
use purse::{Listed, Stopped};
use recording::Recording;

// The work words that a call needs.
pub const WORK_WORDS: usize = 16_384;

// What a stored drill has too little of, in the lent buffers and the rounds told: the causes of the refusals 9, 10, 13 and 11.
#[derive(Clone, Copy)]
pub enum Shortage {
    WorkShort,
    Overflow,
    RoundsSpent,
    AnswerShort,
}

// The refusal of a call by each shortage.
impl From<Shortage> for Refusal {
    ghost from_gives = { λ s r. r ≡ refusal_of s };

    fn from(shortage: Shortage) -> Refusal {
        match shortage {
            Shortage::WorkShort => Refusal::WorkShort,
            Shortage::Overflow => Refusal::Overflow,
            Shortage::RoundsSpent => Refusal::RoundsSpent,
            Shortage::AnswerShort => Refusal::AnswerShort,
        }
    }
}

// Zeroes the work words that a call may have used.
fn clear(work: &mut [i32])
    requires { room ≤ length work.old }
    ensures { work.new ≡ cleared work.old }
{
    work[..WORK_WORDS].fill(0);
}

// Copies the words of the first slot's zones to the front of the answer.
fn fill(work: &[i32], answer: &mut [i32], count: usize)
    requires { (count * zone_words ≤ length work.now) × (count * zone_words ≤ length answer.old) }
    ensures { answer.new ≡ fronted (words (list_at work.now 0 count)) answer.old }
{
    let n = count * words::ZONE_WORDS;
    answer[..n].copy_from_slice(&work[..n]);
}

// The evaluated list in front of the answer, where that has room for it; the rounds it had are spent, those of a list without room too.
fn deliver(
    evaluated: Result<Listed, Stopped>,
    left: &mut u64,
    work: &[i32],
    answer: &mut [i32],
) -> Result<Finished, Shortage>
    requires { InFront evaluated left.old (length work.now) }
    ensures { (result ≡ comes_to evaluated left.old (length answer.old)) × (left.new ≡ left_of evaluated) × (answer.new ≡ answer_after evaluated work.now answer.old) }
{
    match evaluated {
        Ok(list) => {
            let rounds = *left - list.left;
            *left = list.left;
            if answer.len() / words::ZONE_WORDS < list.count {
                return Err(Shortage::AnswerShort);
            }
            fill(work, answer, list.count);
            Ok(Finished {
                zones: list.count,
                rounds,
            })
        }
        Err(Stopped::Overflow { left: unspent }) => {
            *left = unspent;
            Err(Shortage::Overflow)
        }
        Err(Stopped::Spent) => {
            *left = 0;
            Err(Shortage::RoundsSpent)
        }
    }
}

// A stored drill worked out within the rounds left: its list evaluated in the work buffer and delivered, and the work buffer cleared.
pub fn work_out(
    recording: &Recording<'_>,
    nodes: &[u32],
    root: u32,
    left: &mut u64,
    answer: &mut [i32],
    work: &mut [i32],
) -> Result<Finished, Shortage>
    requires { Rooted nodes.now recording.now.size.channels root 16 }
    ensures { Works recording.now.bytes.now nodes.now recording.now.size root left.old result left.new answer.old work.old answer.new work.new }
{
    if work.len() < WORK_WORDS {
        return Err(Shortage::WorkShort);
    }
    let window = Window::whole(recording);
    let evaluated = evaluation::evaluate(&window, nodes, root, work, 0, 16, *left);
    let worked = deliver(evaluated, left, work, answer);
    clear(work);
    worked
}

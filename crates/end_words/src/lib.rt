// The ends of some stretches in three words of a lent buffer: whether there are any, the latest end as a limit on the end, and the earliest as a
// limit on the negated end, coded as in an answer.
//
// specs/EndWords.antt says which words these are.
#![tactic(auto)]

ghost use Rattle.std.specs.Prelude.{◌≡◌, [], ◌∷◌, ◌++◌, ◌≤◌, length, drop};
ghost use Rattle.limit.specs.Limit.{most_ticks, code};
ghost use Rattle.extremes.specs.Ends.{tick_of};
ghost use Rattle.end_words.specs.EndWords.{end_words, latest_limit, earliest_limit, words_of, Few};

use extremes::{Ends, Extreme};
use limit::Limit;

// The words of the ends.
pub const END_WORDS: usize = 3;

// The words of the latest and of the earliest end. They have nothing in common but the two cases: one function for both would take the limits
// that it makes as parameters.
fn latest_word(e: Extreme) -> i32
    requires { tick_of e ≤ most_ticks }
    ensures { result ≡ code (latest_limit e) }
{
    match e {
        Extreme::Reached(v) => Limit::most(v).word(),
        Extreme::Unreached(v) => Limit::less(v).word(),
    }
}

fn earliest_word(e: Extreme) -> i32
    requires { tick_of e ≤ most_ticks }
    ensures { result ≡ code (earliest_limit e) }
{
    match e {
        Extreme::Reached(v) => Limit::least(v).word(),
        Extreme::Unreached(v) => Limit::more(v).word(),
    }
}

// Some or none is a number here, 1 or 0: `words_of`, which `write_ends` promises, has it so.
fn write_three(words: &mut [i32], some: i32, latest: i32, earliest: i32)
    requires { end_words ≤ length words.old }
    ensures { words.new ≡ (some ∷ latest ∷ earliest ∷ []) ++ drop end_words words.old }
{
    words[..END_WORDS].copy_from_slice(&[some, latest, earliest]);
}

// Writes the words of the ends to the front; all others stay as they were.
pub fn write_ends(words: &mut [i32], ends: Option<Ends>)
    requires { (end_words ≤ length words.old) × (Few ends) }
    ensures { words.new ≡ words_of ends ++ drop end_words words.old }
{
    match ends {
        None => write_three(words, 0, 0, 0),
        Some(ends) => {
            let latest = latest_word(ends.latest);
            let earliest = earliest_word(ends.earliest);
            write_three(words, 1, latest, earliest);
        }
    }
}

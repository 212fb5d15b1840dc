// Reads what the text of a drill has at a place: a byte, a number, a range, an operator after its operand, a letter with its sign.
// Nothing is known here of the levels of the grammar, nor of trees.
//
// A reader answers where what it read ends, and its value, or `None` where the text has no such thing. Text and place are two parameters, and no
// rest of the text: the place is a part of the answer.
// specs/Tokens.antt says what a text begins with, and what is kept of it.
#![tactic(auto)]

ghost use Rattle.std.specs.Prelude.{◌≡◌};
ghost use Rattle.tokens.specs.Tokens.{cap, capped_end, capped_upper, capped_range, numeral, bound, upper_end, limits, GotAs, PostfixAs, LetterAs, Seen};
ghost use Rattle.tokens.specs.Readers.{OffsetAs, PastAs, Signed-at};

use expression::{End, Range, Sign, Unary};

// Whether the byte stands at `at`.
pub fn byte_is(text: &[u8], at: usize, byte: u8) -> bool
    ensures { Seen byte text.now at result }
{
    at < text.len() && text[at] == byte
}

// The place behind the byte, if it stands at `at`.
fn past(text: &[u8], at: usize, byte: u8) -> Option<usize>
    ensures { PastAs byte text.now at result }
{
    if byte_is(text, at, byte) {
        Some(at + 1)
    } else {
        None
    }
}

// The byte as its place among the `count` bytes from `first` on.
fn offset_at(text: &[u8], at: usize, first: u8, count: u32) -> Option<u32>
    ensures { OffsetAs first count text.now at result }
{
    let offset = u32::from(text.get(at)?.checked_sub(first)?);
    // With `then_some` the proof does not close.
    if offset < count { Some(offset) } else { None }
}

// A decimal number, without a leading zero unless 0 itself. It has any length, and never overflows: 1,000,001 stands for every
// number above 1,000,000.
fn number_at(text: &[u8], at: usize) -> Option<(usize, u32)>
    ensures { GotAs numeral cap text.now at result }
{
    let mut value = offset_at(text, at, b'0', 10)?;
    let mut pos = at + 1;
    // Not a `for` over the bytes: no digit follows a 0, and the place behind the last one is a part of the answer.
    while 0 < value
        && let Some(digit) = offset_at(text, pos, b'0', 10)
    {
        value = (value * 10 + digit).min(1_000_001);
        pos += 1;
    }
    Some((pos, value))
}

// An end of a range: a number, or `<` and a number.
fn bound_at(text: &[u8], at: usize) -> Option<(usize, End)>
    ensures { GotAs bound capped_end text.now at result }
{
    if let Some(start) = past(text, at, b'<') {
        let (end, n) = number_at(text, start)?;
        return Some((end, End::Open(n)));
    }
    let (end, n) = number_at(text, at)?;
    Some((end, End::Closed(n)))
}

// What stands after the comma of a range, with the closing brace.
fn upper_at(text: &[u8], at: usize) -> Option<(usize, Option<End>)>
    ensures { GotAs upper_end capped_upper text.now at result }
{
    if let Some(end) = past(text, at, b'}') {
        return Some((end, None));
    }
    let (close, hi) = bound_at(text, at)?;
    let end = past(text, close, b'}')?;
    Some((end, Some(hi)))
}

// What stands after an opening brace, with the closing one.
fn range_at(text: &[u8], at: usize) -> Option<(usize, Range)>
    ensures { GotAs limits capped_range text.now at result }
{
    let (comma, lo) = bound_at(text, at)?;
    let start = past(text, comma, b',')?;
    let (end, hi) = upper_at(text, start)?;
    Some((end, Range { lo, hi }))
}

// A `*`, or a range in braces. Braces without a range are no operator, and so end the part that is read.
pub fn postfix_at(text: &[u8], at: usize) -> Option<(usize, Unary)>
    ensures { PostfixAs text.now at result }
{
    if let Some(end) = past(text, at, b'*') {
        return Some((end, Unary::Star));
    }
    let start = past(text, at, b'{')?;
    let (end, range) = range_at(text, start)?;
    Some((end, Unary::Band(range)))
}

// Where the letter of a sign stands, and what the sign asks of it. Without a sign the letter stands at `at`, and is to be high.
fn sign_at(text: &[u8], at: usize) -> (usize, Sign)
    ensures { Signed-at text.now at result.0 result.1 }
{
    match text.get(at).copied() {
        Some(b'!') => (at + 1, Sign::Low),
        Some(b'+') => (at + 1, Sign::Rise),
        Some(b'-') => (at + 1, Sign::Fall),
        _ => (at, Sign::High),
    }
}

// A letter, or `!`, `+` or `-` and a letter: where it ends, what it asks, and its channel.
pub fn letter_at(text: &[u8], at: usize) -> Option<(usize, Sign, u32)>
    ensures { LetterAs text.now at result }
{
    let (letter, sign) = sign_at(text, at);
    let channel = offset_at(text, letter, b'a', 16)?;
    Some((letter + 1, sign, channel))
}

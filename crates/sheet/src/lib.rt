// The sheet of a call: the bytes that the program prints for an outcome and the words of its zones, written into a lent
// buffer. specs/Sheet.antt is the text, piece by piece; each private function puts one piece behind what is written so far.
#![tactic(auto)]

ghost use Rattle.std.specs.Prelude.{◌≡◌, [], ◌∷◌, ◌++◌, ◌*◌, ◌≤◌, ◌<◌, neg_ℤ, length};
ghost use Rattle.std.specs.Int.Signed.{mag};
ghost use Rattle.limit.specs.Limit.{value};
ghost use Rattle.words.specs.Words.{zone_words};
ghost use Rattle.text.specs.Buffer.{Puts};
ghost use Rattle.outcome.specs.Outcome.{returned};
ghost use Rattle.sheet.specs.Sheet.{bracket, range, line, lines, finished, refused, sheet};
ghost use Rattle.sheet.specs.Buffer.{answer, left};

use limit::Limit;
use outcome::{Outcome, Returned};
use text::Text;
use words::ZONE_WORDS;
use zone::Zone;

// Room for the sheet of any call.
pub const LONGEST: usize = 12_288;

// Why a sheet is not written.
#[derive(Clone, Copy)]
pub enum Unprinted {
    // The buffer is shorter than the sheet.
    TooSmall,
    // The words of the zones are not all there; nothing is written.
    FrontShort,
}

// The number of a limit. An arm for each case: with one arm for both the proof does not close.
fn number(l: Limit) -> i64
    ensures { (result ≡ value l) × (mag result < 2_147_483_648) }
{
    match l {
        Limit::AtMost(v) => i64::from(v),
        Limit::Below(v) => i64::from(v),
    }
}

// The number of the lower limit that a limit on the negated quantity is.
fn negated(l: Limit) -> i64
    ensures { result ≡ neg_ℤ (value l) }
{
    -number(l)
}

// A square bracket where the limit is reached, a round one where it is not.
fn bracket(text: &mut Text, l: Limit, square: u8, round: u8)
    ensures { Puts (bracket l (square ∷ []) (round ∷ [])) text.old text.new }
{
    match l {
        Limit::AtMost(_) => text.put(square),
        Limit::Below(_) => text.put(round),
    }
}

fn range(text: &mut Text, lower: Limit, upper: Limit)
    ensures { Puts (range lower upper) text.old text.new }
{
    bracket(text, lower, b'[', b'(');
    text.integer(negated(lower));
    text.put(b',');
    text.integer(number(upper));
    bracket(text, upper, b']', b')');
}

// A range behind its label.
fn labelled(text: &mut Text, label: &[u8], lower: Limit, upper: Limit)
    ensures { Puts (label.now ++ range lower upper) text.old text.new }
{
    text.literal(label);
    range(text, lower, upper);
}

fn line(text: &mut Text, z: Zone)
    ensures { Puts (line z) text.old text.new }
{
    labelled(text, b"start ", z.nstart, z.start);
    labelled(text, b" end ", z.nend, z.end);
    labelled(text, b" length ", z.nlength, z.length);
    text.put(b'\n');
}

fn lines(text: &mut Text, front: &[i32], zones: usize)
    requires { zones * zone_words ≤ length front.now }
    ensures { Puts (lines front.now zones) text.old text.new }
{
    for i in 0..zones {
        line(text, words::read_zone(front, i * ZONE_WORDS));
    }
}

fn finished(text: &mut Text, zones: usize, rounds: u64, front: &[i32])
    requires { zones * zone_words ≤ length front.now }
    ensures { Puts (finished zones rounds front.now) text.old text.new }
{
    text.literal(b"zones ");
    text.decimal(zones as u64);
    text.literal(b" rounds ");
    text.decimal(rounds);
    text.put(b'\n');
    lines(text, front, zones);
}

fn refused(text: &mut Text, n: u64)
    ensures { Puts (refused n) text.old text.new }
{
    text.literal(b"refused ");
    text.decimal(n);
    text.put(b'\n');
}

// Puts the sheet of an outcome, whose zones stand in `front`, behind the text so far.
pub fn append(text: &mut Text, outcome: Outcome, front: &[i32])
    requires { (returned outcome).zones * zone_words ≤ length front.now }
    ensures { Puts (sheet (returned outcome) front.now) text.old text.new }
{
    match outcome {
        Err(refusal) => refused(text, u64::from(refusal.number())),
        Ok(list) => finished(text, list.zones, list.rounds, front),
    }
}

// Writes the sheet of an outcome, whose zones stand in `front`, to the front of `out`; what is behind it stays as it
// was. Of a sheet that is too long the buffer holds as much as it has room for.
pub fn text(outcome: Outcome, front: &[i32], out: &mut [u8]) -> Result<usize, Unprinted>
    ensures answer { result ≡ answer (returned outcome) front.now (length out.old) }
    ensures out { out.new ≡ left (returned outcome) front.now out.old }
{
    let told = Returned::from(outcome);
    if front.len() / ZONE_WORDS < told.zones {
        return Err(Unprinted::FrontShort);
    }
    let mut text = Text::begin(out);
    append(&mut text, outcome, front);
    text.written.ok_or(Unprinted::TooSmall)
}

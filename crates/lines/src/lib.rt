// The text of a sheet of drills, taken in chunk by chunk, to its lines. A text may be of any length; what is kept of it
// are its first eight lines, each with its newline and up to 256 bytes of it. They stand in a store that the caller
// lends, each in a place of its own.
//
// specs/Lines.antt says what a sheet is, and specs/Taken.antt what is known of a text while it comes in.
#![tactic(auto)]

ghost use Rattle.std.specs.Prelude.{◌≡◌, List, [], ◌∷◌, ◌++◌, ℕ, ◌+◌, ◌≤◌, ◌<◌, min, length, take, drop};
ghost use Rattle.lines.specs.Lines.{most_lines, terminated, Unbroken};
ghost use Rattle.lines.specs.Taken.{place_bytes, store_bytes, Held, Sums, CountedAs};
ghost use Rattle.lines.specs.Steps.{kept, LengthAs};

// The lines that a sheet has at most, the bytes of a line's place, and those of the store.
pub const MOST_LINES: usize = 8;

pub const PLACE: usize = 256;

// A lent store may be longer, so it is a slice whose length each function asks for: a type of just so many bytes would ask
// more of callers of `take_in`, `lines_of` and `line`. `Taken` stays beside it, since `count` is asked of no store and
// `line` of no state.
pub const STORE_BYTES: usize = MOST_LINES * PLACE;

// What is known of a text beside the store: how many lines a newline ended, counted up to 9; how many bytes stand
// behind the last newline, counted up to 256; and whether one of the lines is empty. That is a mark and no error: a text is judged at its
// end alone.
#[derive(Clone, Copy)]
pub struct Taken {
    pub lines: usize,
    pub begun: usize,
    pub empty: bool,
}

// No text yet, whatever the store holds.
pub fn begin() -> Taken
    ensures { (store : List ℕ) → Sums [] store result }
{
    Taken {
        lines: 0,
        begun: 0,
        empty: false,
    }
}

// Puts byte i of line k into its place. A ninth line has no place, and a 257th byte no room.
#[tactic(auto, unfolding(crate::specs::Steps::kept))]
fn keep(store: &mut [u8], k: usize, i: usize, b: u8)
    requires { store_bytes ≤ length store.old }
    ensures { store.new ≡ kept store.old k i b }
{
    if k < MOST_LINES && i < PLACE {
        store[k * PLACE + i] = b;
    }
}

// Takes in a byte. The newline goes into the place too: by it `line` finds the end of the line again, so that no length
// is kept.
fn take_byte(state: Taken, store: &mut [u8], b: u8) -> Taken
    requires { store_bytes ≤ length store.old }
    ensures sums { (text : List ℕ) → Sums text store.old state → Sums (text ++ (b ∷ [])) store.new result }
    ensures beyond { drop store_bytes store.new ≡ drop store_bytes store.old }
{
    keep(store, state.lines, state.begun, b);
    if b == b'\n' {
        return Taken {
            lines: state.lines.saturating_add(1).min(MOST_LINES + 1),
            begun: 0,
            empty: state.empty || state.begun == 0,
        };
    }
    Taken {
        begun: state.begun.saturating_add(1).min(PLACE),
        ..state
    }
}

// Takes in the next chunk of a text. The bytes behind the store's 2,048 are as they were; free are those behind the
// line in each place and, where the state sums up no text, all 2,048 and the result.
pub fn take_in(state: Taken, store: &mut [u8], chunk: &[u8]) -> Taken
    requires { store_bytes ≤ length store.old }
    ensures sums { (text : List ℕ) → Sums text store.old state → Sums (text ++ chunk.now) store.new result }
    ensures beyond { drop store_bytes store.new ≡ drop store_bytes store.old }
{
    let mut taken = state;
    for &b in chunk {
        taken = take_byte(taken, store, b);
    }
    taken
}

// Judges the text at its end: "no line, more than eight, an empty line or a last line without newline", or a sheet of so
// many lines. The result is free where the state sums up no text.
pub fn count(state: Taken) -> Option<usize>
    ensures { (text store : List ℕ) → Sums text store state → CountedAs text store result }
{
    if state.empty || state.lines == 0 || MOST_LINES < state.lines || 0 < state.begun {
        return None;
    }
    Some(state.lines)
}

// Takes in and judges a whole text. The bytes behind the store's 2,048 are as they were; free are those behind the line
// in each place and, where the text is no sheet, all 2,048.
pub fn lines_of(text: &[u8], store: &mut [u8]) -> Option<usize>
    requires { store_bytes ≤ length store.old }
    ensures counted { CountedAs text.now store.new result }
    ensures beyond { drop store_bytes store.new ≡ drop store_bytes store.old }
{
    let none = begin();
    let taken = take_in(none, store, text);
    count(taken)
}

// How many bytes of place k stand before its first newline; all of them where a line of 256 bytes or more left no room
// for it.
fn line_length(store: &[u8], k: usize) -> usize
    requires { (k < most_lines) × (store_bytes ≤ length store.now) }
    ensures { LengthAs store.now k result }
{
    let place = &store[k * PLACE..(k + 1) * PLACE];
    place.iter().position(|&b| b == b'\n').unwrap_or(PLACE)
}

// Line k, from 0, without its newline; of a line of more than 256 bytes the first 256. The result is free where the
// place holds no line.
pub fn line(store: &[u8], k: usize) -> &[u8]
    requires { (k < most_lines) × (store_bytes ≤ length store.now) }
    ensures { (drill : List ℕ) → Unbroken drill → Held store.now k (terminated drill) → result.now ≡ take place_bytes drill }
{
    let at = k * PLACE;
    let end = at + line_length(store, k);
    &store[at..end]
}

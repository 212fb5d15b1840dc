// Lists of zones, in slots of a lent buffer of words: up to 128 zones of six words each. The put rule of document 01, and lists
// copied from slot to slot.
//
// specs/ has a definition for each, over plain lists of zones; specs/Slots.antt says how a slot holds a list.
//
// A list is a place and a count in the one lent buffer, here and in the crates above, and their contracts ask for both (`Slot`, `Free`, `Source`,
// `Supply`, `Operands`, `OperandAt`, `Workspace`, `Stands`, `Pairing`, and the words of a slot from a place on). It is no struct that holds the
// buffer: an operator reads two lists of it and writes a third, so that a struct would lend the buffer to one of them alone. Nor is a place with its
// count a struct: a list that grows has its count in `Growing`, and the contracts would name two fields where they name two numbers.
#![tactic(auto)]

ghost use Rattle.std.specs.Prelude.{◌≡◌, ◌⊎◌, ◌+◌, ◌*◌, ◌≤◌, ◌<◌, length};
ghost use Rattle.words.specs.Words.{zone_words, zone_at};
ghost use Rattle.zone.specs.Zone.{contains};
ghost use Rattle.list.specs.Insert.{capacity, outside};
ghost use Rattle.list.specs.Members.{Apart};
ghost use Rattle.list.specs.Slots.{slot_words, list_at, Free, Slot, Holds, Kept, Copied, Disjoint, InsertAs};
ghost use Rattle.list.specs.Steps.{KeepsAs, Sifting, LookAs, AlsoAs, AppendAs};

use nesting::Nesting;
use words::ZONE_WORDS;

// The zones that a list has at most, and the words of a slot, which has room for them.
pub const CAPACITY: usize = 128;

pub const SLOT_WORDS: usize = CAPACITY * ZONE_WORDS;

// A put would leave a list of 129 zones.
#[derive(Clone, Copy)]
pub struct Overflow;

// What a new zone meets in a list: a zone that holds it; else only zones apart from it; or one inside it, at this place;
// or any number inside it, the first of them at this place, so that the rest are to be gone through.
#[derive(Clone, Copy)]
enum Look {
    Held,
    Apart,
    One(usize),
    Several(usize),
}

// Moves the n words behind the first six of a part to its front. Both places stand in one part, so that it is a single move of
// memory; `copy_within` goes word by word, and was measured to take longer.
fn move_down(part: &mut [i32], n: usize)
    requires { zone_words + n ≤ length part.old }
    ensures { Copied zone_words 0 n part.old part.new }
{
    for k in 0..n {
        part[k] = part[k + ZONE_WORDS];
    }
}

// Moves n words down to the six at `gap`, behind which they stand.
fn close_gap(words: &mut [i32], gap: usize, n: usize)
    requires { gap + zone_words + n ≤ length words.old }
    ensures { Copied (gap + zone_words) gap n words.old words.new }
{
    move_down(&mut words[gap..], n);
}

// Copies n zones to a place before them, or to one past their end. Most lists are short, and go zone by zone in fewer
// steps than word by word.
pub fn copy_zones(words: &mut [i32], from: usize, to: usize, n: usize)
    requires { (from + n * zone_words ≤ length words.old) × (to + n * zone_words ≤ length words.old) × ((to ≤ from) ⊎ (from + n * zone_words ≤ to)) }
    ensures { Copied from to (n * zone_words) words.old words.new }
{
    for k in 0..n {
        words::move_zone(words, from + k * ZONE_WORDS, to + k * ZONE_WORDS);
    }
}

// What has been seen, with zone i inside the new one as well. An arm for each case says what becomes of it.
fn also(seen: Look, i: usize) -> Look
    ensures { AlsoAs seen i result }
{
    match seen {
        Look::Held => Look::Held,
        Look::Apart => Look::One(i),
        Look::One(k) => Look::Several(k),
        Look::Several(k) => Look::Several(k),
    }
}

// Goes over a list up to a zone that holds the one of six words w.
fn look_over(words: &[i32], base: usize, count: usize, w: &[i32; ZONE_WORDS]) -> Look
    requires { Slot words.now base count }
    ensures { LookAs (zone_at w.now 0) words.now base count result }
{
    let mut seen = Look::Apart;
    for i in 0..count {
        match nesting::nested(w, 0, words, base + i * ZONE_WORDS) {
            Nesting::Inside => {
                return Look::Held;
            }
            Nesting::Around => {
                seen = also(seen, i);
            }
            Nesting::Apart => {}
        }
    }
    seen
}

// Keeps the i-th zone, behind the first `kept`, unless it lies inside the one of six words w; answers how many are kept.
fn keep_outside(
    words: &mut [i32],
    base: usize,
    i: usize,
    kept: usize,
    w: &[i32; ZONE_WORDS],
) -> usize
    requires { (kept ≤ i) × (i < capacity) × (Free words.old base) }
    ensures { KeepsAs (contains (zone_at w.now 0) (zone_at words.old (base + i * zone_words))) (base + i * zone_words) base kept words.old words.new result }
{
    if nesting::included(words, base + i * ZONE_WORDS, w, 0) {
        return kept;
    }
    if kept == i {
        return kept + 1; // it stands there already
    }
    words::move_zone(words, base + i * ZONE_WORDS, base + kept * ZONE_WORDS);
    kept + 1
}

// Removes the listed zones inside the one of six words w, none of which is among the first `clear`, the rest keeping
// their order; answers how many are left.
fn remove_inside(
    words: &mut [i32],
    base: usize,
    count: usize,
    clear: usize,
    w: &[i32; ZONE_WORDS],
) -> usize
    requires { (Slot words.old base count) × (Sifting (zone_at w.now 0) base count words.old words.old clear clear) }
    ensures left { Holds words.new base result (outside (zone_at w.now 0) (list_at words.old base count)) }
    ensures kept { Kept base slot_words words.old words.new }
{
    let mut kept = clear;
    for i in clear..count {
        kept = keep_outside(words, base, i, kept, w);
    }
    kept
}

// Puts the zone of six words w behind the first n of a slot, where there is room; answers how many there are then.
fn append(
    words: &mut [i32],
    base: usize,
    n: usize,
    w: &[i32; ZONE_WORDS],
) -> Result<usize, Overflow>
    requires { Slot words.old base n }
    ensures { AppendAs (zone_at w.now 0) words.old base n words.new result }
{
    if CAPACITY <= n {
        return Err(Overflow);
    }
    words::copy_zone(words, base + n * ZONE_WORDS, w, 0);
    Ok(n + 1)
}

// Words, place and count are parameters and no fields of a list, here and in the crates above: one buffer is lent for all lists, so that a list
// which held its `&mut` would have it alone, and two lists are read while a third is written.
//
// Puts the zone of six words w into the list of a slot: answers how many zones it has then, or `None` where the zone is turned
// away. Where it would be the 129th, no zone gave way to it, and so no word has been written.
pub fn insert_words(
    words: &mut [i32],
    base: usize,
    count: usize,
    w: &[i32; ZONE_WORDS],
) -> Result<Option<usize>, Overflow>
    requires { Slot words.old base count }
    ensures { InsertAs (zone_at w.now 0) words.old base count words.new result }
{
    let stay = match look_over(words, base, count, w) {
        Look::Held => return Ok(None),
        Look::Apart => count,
        Look::One(k) => {
            close_gap(words, base + k * ZONE_WORDS, (count - k - 1) * ZONE_WORDS);
            count - 1
        }
        Look::Several(k) => remove_inside(words, base, count, k, w),
    };
    let placed = append(words, base, stay, w)?;
    Ok(Some(placed))
}

// Puts the zone of six words w, which lies inside no listed zone and around none: it goes last, and no zone gives way to it.
pub fn insert_apart(
    words: &mut [i32],
    base: usize,
    count: usize,
    w: &[i32; ZONE_WORDS],
) -> Result<Option<usize>, Overflow>
    requires { (Slot words.old base count) × (Apart (zone_at w.now 0) (list_at words.old base count)) }
    ensures { InsertAs (zone_at w.now 0) words.old base count words.new result }
{
    let placed = append(words, base, count, w)?;
    Ok(Some(placed))
}

// Brings a list to its slot, where it stands in another.
pub fn bring(words: &mut [i32], at: usize, n: usize, target: usize)
    requires { (n ≤ capacity) × (Free words.old at) × (Free words.old target) × ((at ≡ target) ⊎ (Disjoint at target)) }
    ensures list { list_at words.new target n ≡ list_at words.old at n }
    ensures kept { Kept target slot_words words.old words.new }
{
    if at == target {
        return;
    }
    copy_zones(words, at, target, n);
}

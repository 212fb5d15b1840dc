// The hulls of a list: for each block of sixteen zones how far their starts reach, so that a zone that has no time in common with a hull
// passes over the whole block.
//
// specs/Hulls.antt says what a hull is.
#![tactic(auto)]

ghost use Rattle.std.specs.Prelude.{◌≡◌, ◌+◌, ◌*◌, ◌≤◌, min, length};
ghost use Rattle.words.specs.Words.{zone_words};
ghost use Rattle.list.specs.Insert.{capacity};
ghost use Rattle.list.specs.Slots.{list_at};
ghost use Rattle.hulls.specs.Hulls.{block_zones, hull_words, Covers, Hulls};

use words::ZONE_WORDS;

// The zones of a block, and the words of all hulls of a list: two for each of its blocks.
pub const BLOCK: usize = 16;

pub const HULL_WORDS: usize = 16;

// Below all words of zones inside 0..1,000,000.
const LEAST_WORD: i32 = -2_000_002;

// How far some zones reach: the highest word of a limit on start, and of one on −start.
#[derive(Clone, Copy)]
struct Reach {
    start: i32,
    nstart: i32,
}

// The zones of the block where so many zones are left.
pub fn block_size(left: usize) -> usize
    ensures { result ≡ min left block_zones }
{
    left.min(BLOCK)
}

// The hull of the n zones from `at` on.
fn reach_of(words: &[i32], at: usize, n: usize) -> Reach
    requires { at + n * zone_words ≤ length words.now }
    ensures { Covers result.start result.nstart (list_at words.now at n) }
{
    let mut start = LEAST_WORD;
    let mut nstart = LEAST_WORD;
    for j in 0..n {
        start = limit::greater(start, words[at + j * ZONE_WORDS]);
        nstart = limit::greater(nstart, words[at + j * ZONE_WORDS + 1]);
    }
    Reach { start, nstart }
}

// Writes the hulls of the list of n zones from `base` on; of a list of one block none is written. The words that are left over may be any.
// A hull stands as two words, and not as a `Reach`, because `touching::share` holds a zone's words against it as against another zone's.
pub fn write_hulls(words: &[i32], base: usize, n: usize, hulls: &mut [i32])
    requires { (n ≤ capacity) × (base + n * zone_words ≤ length words.now) × (length hulls.old ≡ hull_words) }
    ensures { Hulls hulls.new words.now base n }
{
    if n <= BLOCK {
        return;
    }
    for b in 0..n.div_ceil(BLOCK) {
        let h = reach_of(
            words,
            base + b * BLOCK * ZONE_WORDS,
            block_size(n - b * BLOCK),
        );
        hulls[b * 2] = h.start;
        hulls[b * 2 + 1] = h.nstart;
    }
}

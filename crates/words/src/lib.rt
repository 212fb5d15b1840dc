// Zones in the words of a lent buffer: six words a zone, each the word of a limit. Reading, writing and copying.
//
// specs/Words.antt says which zone stands where; proofs/Words.antt has the laws that crates above cite. Each function asks that six words stand
// from a place on: a place says nothing without its buffer, and each call has another.
#![tactic(auto)]

ghost use Rattle.std.specs.Prelude.{◌≡◌, [], ◌∷◌, ◌+◌, ◌≤◌, ◌<◌, length};
ghost use Rattle.limit.specs.Limit.{most_ticks, decode};
ghost use Rattle.zone.specs.Zone.{Ranged};
ghost use Rattle.words.specs.Words.{zone_words, word, codes, zone_at, overwrite};

use limit::Limit;
use zone::Zone;

// The words of a zone, and where those on its starts and on its ends begin.
pub const ZONE_WORDS: usize = 6;

pub const START: usize = 0;

pub const END: usize = 2;

fn limit_at(words: &[i32], at: usize) -> Limit
    requires { at < length words.now }
    ensures { result ≡ decode (word words.now at) }
{
    Limit::from(words[at])
}

// The zone whose six words stand from `at` on.
pub fn read_zone(words: &[i32], at: usize) -> Zone
    requires { at + zone_words ≤ length words.now }
    ensures { result ≡ zone_at words.now at }
{
    Zone {
        start: limit_at(words, at),
        nstart: limit_at(words, at + 1),
        end: limit_at(words, at + 2),
        nend: limit_at(words, at + 3),
        length: limit_at(words, at + 4),
        nlength: limit_at(words, at + 5),
    }
}

// Writes six words from `at` on; all other words stay as they were. They are stored one by one, because `copy_from_slice` was measured to take
// half as long again.
fn write_words(words: &mut [i32], at: usize, w: [i32; ZONE_WORDS])
    requires { at + zone_words ≤ length words.old }
    ensures { words.new ≡ overwrite words.old at w }
{
    words[at] = w[0];
    words[at + 1] = w[1];
    words[at + 2] = w[2];
    words[at + 3] = w[3];
    words[at + 4] = w[4];
    words[at + 5] = w[5];
}

// Writes the six words of a zone from `at` on; all other words stay as they were. Six words are handed on in a lent buffer: an array that is answered
// by value is copied by parts and waited for.
pub fn write_zone(words: &mut [i32], at: usize, z: Zone)
    requires { (at + zone_words ≤ length words.old) × (Ranged most_ticks z) }
    ensures { words.new ≡ overwrite words.old at (codes z) }
{
    let w = [
        z.start.word(),
        z.nstart.word(),
        z.end.word(),
        z.nend.word(),
        z.length.word(),
        z.nlength.word(),
    ];
    write_words(words, at, w);
}

// Copies the zone whose words stand from `i` on in `from`, read one by one for the same reason as stored; all other words stay as they were.
pub fn copy_zone(words: &mut [i32], at: usize, from: &[i32], i: usize)
    requires { (at + zone_words ≤ length words.old) × (i + zone_words ≤ length from.now) }
    ensures { words.new ≡ overwrite words.old at (codes (zone_at from.now i)) }
{
    let w = [
        from[i],
        from[i + 1],
        from[i + 2],
        from[i + 3],
        from[i + 4],
        from[i + 5],
    ];
    write_words(words, at, w);
}

// Copies the zone whose words stand from `from` on to `to` in the same words, where the two places may have words in common; all others stay as
// they were. The six are read before the first is written: `copy_within` goes word by word, and was measured to take longer.
pub fn move_zone(words: &mut [i32], from: usize, to: usize)
    requires { (from + zone_words ≤ length words.old) × (to + zone_words ≤ length words.old) }
    ensures { words.new ≡ overwrite words.old to (codes (zone_at words.old from)) }
{
    let w = [
        words[from],
        words[from + 1],
        words[from + 2],
        words[from + 3],
        words[from + 4],
        words[from + 5],
    ];
    write_words(words, to, w);
}

// When some end of one zone is a start of another, of their words in a lent buffer alone: four words are compared, and nothing is
// decoded.
//
// specs/Sharing.antt says it of limits; proofs/Sharing.antt has the laws that crates above cite.
#![tactic(auto)]

ghost use Rattle.std.specs.Prelude.{◌↔◌, ◌+◌, ◌≤◌, T, length};
ghost use Rattle.limit.specs.Limit.{most_sum, decode, Small};
ghost use Rattle.zone.specs.Zone.{Proper, Touches};
ghost use Rattle.words.specs.Words.{zone_words, word, zone_at};
ghost use Rattle.touching.specs.Sharing.{Share};

use words::{END, START};

// Whether two ranges of times have one in common. The words of their limits, on the time and on the negated time, stand from `i` on in
// `a` and from `j` on in `b`.
pub fn share(a: &[i32], i: usize, b: &[i32], j: usize) -> bool
    requires { (i + 2 ≤ length a.now) × (j + 2 ≤ length b.now) × (Small most_sum (decode (word a.now i))) × (Small most_sum (decode (word a.now (i + 1)))) }
    ensures { T result ↔ Share (decode (word a.now i)) (decode (word a.now (i + 1))) (decode (word b.now j)) (decode (word b.now (j + 1))) }
{
    limit::room(b[j + 1], a[i]) & limit::room(b[j], a[i + 1])
}

// Whether some time is an end of a stretch of the zone whose words stand from `left` on, and a start of one of the zone from
// `right` on.
pub fn touches(words: &[i32], left: usize, right: usize) -> bool
    requires { (left + zone_words ≤ length words.now) × (right + zone_words ≤ length words.now) × (Proper 0 1_000_000 (zone_at words.now left)) × (Proper 0 1_000_000 (zone_at words.now right)) }
    ensures { T result ↔ Touches (zone_at words.now left) (zone_at words.now right) }
{
    share(words, left + END, words, right + START)
}

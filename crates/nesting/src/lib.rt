// How one zone lies to another, of their words in lent buffers alone: the order of words is that of limits, so nothing is
// decoded.
//
// specs/Nesting.antt says how two zones may lie; proofs/Nestings.antt has the laws that crates above cite. Each function asks that six words stand
// from a place on, as those of `words` do.
#![tactic(auto)]

ghost use Rattle.std.specs.Prelude.{◌≡◌, ◌+◌, ◌≤◌, ◌<◌, length};
ghost use Rattle.limit.specs.Limit.{at_most, decode};
ghost use Rattle.zone.specs.Zone.{contains, Contains};
ghost use Rattle.words.specs.Words.{zone_words, word, zone_at};
ghost use Rattle.nesting.specs.Nesting.{nesting, Nests};

// How one zone lies to another: inside it (or the same), around it, or neither.
#[derive(Clone, Copy)]
pub enum Nesting {
    Inside,
    Around,
    Apart,
}

// Whether the limit of one word is at most that of another.
fn word_at_most(inner: &[i32], i: usize, outer: &[i32], j: usize) -> bool
    requires { (i < length inner.now) × (j < length outer.now) }
    ensures { result ≡ at_most (decode (word inner.now i)) (decode (word outer.now j)) }
{
    inner[i] <= outer[j]
}

// Whether the tight zone whose words stand from `i` on in `inner` lies inside the one from `j` on in `outer`. The starts mostly settle it,
// and then the lengths. Words are compared by twos, as a zone that was just composed was written: so they are read without a wait.
pub fn included(inner: &[i32], i: usize, outer: &[i32], j: usize) -> bool
    requires { (i + zone_words ≤ length inner.now) × (j + zone_words ≤ length outer.now) }
    ensures value { result ≡ contains (zone_at outer.now j) (zone_at inner.now i) }
    ensures meaning { Contains (zone_at outer.now j) (zone_at inner.now i) result }
{
    if !word_at_most(inner, i, outer, j) {
        return false;
    }
    if !word_at_most(inner, i + 1, outer, j + 1) {
        return false;
    }
    let shorter = word_at_most(inner, i + 4, outer, j + 4);
    let longer = word_at_most(inner, i + 5, outer, j + 5);
    if !(shorter & longer) {
        return false;
    }
    word_at_most(inner, i + 2, outer, j + 2) & word_at_most(inner, i + 3, outer, j + 3)
}

// How the tight zone whose words stand from `i` on in `a` lies to the one from `j` on in `b`. The one whose starts have the
// higher upper limit cannot lie inside the other, so this way is not asked. Whether it is the one in `a` is asked first:
// zones are mostly put in rising time, and `a` has the new one.
pub fn nested(a: &[i32], i: usize, b: &[i32], j: usize) -> Nesting
    requires { (i + zone_words ≤ length a.now) × (j + zone_words ≤ length b.now) }
    ensures value { result ≡ nesting (zone_at a.now i) (zone_at b.now j) }
    ensures meaning { Nests (zone_at a.now i) (zone_at b.now j) result }
{
    if !word_at_most(a, i, b, j) {
        if included(b, j, a, i) {
            return Nesting::Around;
        }
        return Nesting::Apart;
    }
    if !word_at_most(b, j, a, i) {
        if included(a, i, b, j) {
            return Nesting::Inside;
        }
        return Nesting::Apart;
    }
    if included(a, i, b, j) {
        return Nesting::Inside;
    }
    if included(b, j, a, i) {
        return Nesting::Around;
    }
    Nesting::Apart
}

// What the cases of `finder_cases` have apart from the finder: the five numbers of a case, the words of a buffer before the call and the
// question whether they are still there, and the lines that are printed.
#![tactic(auto)]

ghost use Rattle.std.specs.Prelude.{◌≡◌, true, ◌↔◌, ◌≤◌, ◌<◌};
ghost use Rattle.case_parts.specs.Cases.{four_bytes, told_zones, case_of, word_before, AsBefore};
ghost use Rattle.case_parts.specs.Zero.{Zero};

use std::io;

// The numbers of a case: the bytes of recording and drill, the words of the answer and of the work buffer, and the zones that `front` is told.
#[derive(Drop)]
pub struct Case {
    pub recording: usize,
    pub drill: usize,
    pub answer: usize,
    pub work: usize,
    pub told: usize,
}

#[tactic(auto, unfolding(crate::specs::Cases::four_bytes))]
fn four_bytes(head: &[u8; 20], at: usize) -> usize
    requires { at ≤ 16 }
    ensures { result ≡ four_bytes head.now at }
{
    u32::from_le_bytes([head[at], head[at + 1], head[at + 2], head[at + 3]]) as usize
}

// The largest number of four bytes stands for the largest `usize`.
#[tactic(auto, unfolding(crate::specs::Cases::told_zones))]
fn told_zones(n: usize) -> usize
    ensures { result ≡ told_zones n }
{
    if n == u32::MAX as usize {
        usize::MAX
    } else {
        n
    }
}

pub fn numbers(head: &[u8; 20]) -> Case
    ensures { result ≡ case_of head.now }
{
    Case {
        recording: four_bytes(head, 0),
        drill: four_bytes(head, 4),
        answer: four_bytes(head, 8),
        work: four_bytes(head, 12),
        told: told_zones(four_bytes(head, 16)),
    }
}

// What word i of a buffer is before the call.
fn word_before(i: usize) -> i32
    ensures { result ≡ word_before i }
{
    if 100_000 < i {
        return 0;
    }
    i as i32
}

pub fn fill(words: &mut [i32])
    ensures { AsBefore words.new 0 }
{
    for (i, word) in words.iter_mut().enumerate() {
        *word = word_before(i);
    }
}

// Whether all words from `start` on are as before the call.
fn is_kept(words: &[i32], start: usize) -> bool
    ensures { (result ≡ true) ↔ AsBefore words.now start }
{
    words
        .iter()
        .enumerate()
        .skip(start)
        .all(|(i, &word)| word == word_before(i))
}

// Whether there are n words and the first n are zero. The count is no slice's: there may be fewer words.
fn is_zero(words: &[i32], n: usize) -> bool
    ensures { (result ≡ true) ↔ Zero words.now n }
{
    n <= words.len() && words[..n].iter().all(|&word| word == 0)
}

fn print(rt: &impl Print, text: &[u8]) -> io::Result<()> {
    rt.write_all(text)
}

// A number behind a text.
fn print_number(rt: &impl Print, text: &[u8], n: u64) -> io::Result<()> {
    print(rt, text)?;
    rt.print(n)
}

// The same as a line.
pub fn print_line(rt: &impl Print, text: &[u8], n: u64) -> io::Result<()> {
    print_number(rt, text, n)?;
    print(rt, b"\n")
}

// The first n bytes of a text that has so many.
pub fn print_part(rt: &impl Print, text: &[u8], n: usize) -> io::Result<()> {
    if let Some(part) = text.get(..n) {
        print(rt, part)?;
    }
    Ok(())
}

// What a call returned.
pub fn print_returned(rt: &impl Print, number: u32, zones: usize, rounds: u64) -> io::Result<()> {
    print_number(rt, b"returned ", u64::from(number))?;
    print_number(rt, b" ", zones as u64)?;
    print_line(rt, b" ", rounds)
}

fn print_behind(rt: &impl Print, words: &[i32], start: usize) -> io::Result<()> {
    if is_kept(words, start) {
        print(rt, b" kept behind\n")
    } else {
        print(rt, b" written behind\n")
    }
}

// What a call left in an answer buffer whose filled front has so many words ..
pub fn print_answer_state(rt: &impl Print, answer: &[i32], filled: usize) -> io::Result<()> {
    if is_kept(answer, 0) {
        return print(rt, b"answer kept\n");
    }
    print_number(rt, b"answer front ", filled as u64)?;
    print_behind(rt, answer, filled)
}

// .. and in a work buffer of which it clears so many.
pub fn print_work_state(rt: &impl Print, work: &[i32], cleared: usize) -> io::Result<()> {
    if is_kept(work, 0) {
        return print(rt, b"work kept\n");
    }
    if is_zero(work, cleared) {
        print(rt, b"work zero")?;
    } else {
        print(rt, b"work not zero")?;
    }
    print_behind(rt, work, cleared)
}

// What counts of a file: as much as a buffer has room for, and the text of a drill without its final newline.
#![tactic(auto)]

ghost use Rattle.std.specs.Prelude.{◌≡◌, length, take};
ghost use Rattle.io.specs.Counts.{IsPrefixLen};
ghost use Rattle.std.specs.Io.KnownBytes.{Consumes};
ghost use Rattle.files.specs.Files.{trimmed};

use std::fs;
use std::io::Read;
use std::rt::Files;

// The first bytes of a file: as many as there is room for. The ghost fields tell who has only a reference how much room that
// is, and that so many bytes can be handed out.
#[derive(Drop)]
pub struct Loaded<const N: usize> {
    pub buffer: [u8; N],
    pub filled: usize,
    pub ghost room: { length buffer ≡ N },
    pub ghost within: { IsPrefixLen filled buffer },
}

impl<const N: usize> Loaded<N> {
    // Those of the file at a path. One that can't be opened counts as empty. No contract can say what a file holds; that the
    // bytes counted stand at the start of the buffer is said by the type.
    pub fn from_path(rt: &impl Files, path: &str) -> Loaded<N>
        ensures { IsPrefixLen result.filled result.buffer }
    {
        let mut buffer = [0u8; N];
        let filled = match fs::open(rt, path) {
            Ok(mut file) => read_full(&mut file, &mut buffer),
            Err(_) => 0,
        };
        Loaded { buffer, filled }
    }

    // Those bytes alone.
    pub fn bytes(&self) -> &[u8]
        ensures { result.now ≡ take self.now.filled self.now.buffer }
    {
        &self.buffer[..self.filled]
    }
}

// Reads until the buffer is full, the input ends or a read fails, and answers how many bytes stand at the start of the buffer.
// The loop is over reads: `read_exact` takes an input that ends for a failure, and `read_to_end` needs a heap.
pub fn read_full<R: Read>(input: &mut R, buffer: &mut [u8]) -> usize
    ensures count { IsPrefixLen result buffer.new }
    ensures bytes { Consumes (R.remaining input.old) (R.remaining input.new) (take result buffer.new) }
{
    let mut done = 0;
    while done < buffer.len() {
        match input.read(&mut buffer[done..]) {
            Ok(0) => return done,
            Ok(n) => done += n,
            Err(_) => return done,
        }
    }
    done
}

// A drill without its final newline.
#[tactic(auto, unfolding(crate::specs::Files::trimmed))]
pub fn drill_of(text: &[u8]) -> &[u8]
    ensures { result.now ≡ trimmed text.now }
{
    text.strip_suffix(b"\n").unwrap_or(text)
}

// Holds the lesson of the sheet in lesson.txt over the drive in drive.rec, and prints the results of all its drills.
#![tactic(auto)]

ghost use Rattle.std.specs.Prelude.{List, ℕ, ◌≤◌, length, take};
ghost use Rattle.io.specs.Counts.{IsPrefixLen};
ghost use Rattle.lines.specs.Taken.{store_bytes, Sums};
ghost use Rattle.lesson.specs.Lesson.{Prints};

use files::Loaded;
use finder::WORK_WORDS;
use lines::Taken;
use list::SLOT_WORDS;
use std::rt::Files;
use std::{fs, io};

// Room for one byte more than is accepted of a recording, so that a longer one is refused for its length.
const RECORDING_BYTES: usize = 32_769;

// The sheet is read so many bytes at a time.
const CHUNK_BYTES: usize = 4_096;

// More chunks than any file has: a proved loop ends.
const MOST_CHUNKS: u64 = u64::MAX;

// Writes what is printed for a recording, of which the buffer holds the first bytes, and for the text that the state sums up, to the front of `out`,
// and answers its length.
fn hold(
    recording: &Loaded<RECORDING_BYTES>,
    sheet: Taken,
    store: &[u8; lines::STORE_BYTES],
    out: &mut [u8; lessons::LONGEST],
) -> usize
    requires { (text : List ℕ) × Sums text store.now sheet }
    ensures lesson { Prints recording.now.buffer recording.now.filled sheet store.now (take result out.new) }
    ensures count { IsPrefixLen result out.new }
{
    let mut answer = [0i32; SLOT_WORDS];
    let mut work = [0i32; WORK_WORDS];
    let held = lessons::hold(
        recording.bytes(),
        lines::count(sheet),
        store,
        &mut answer,
        &mut work,
        out,
    );
    held.size
}

// The text of a file, of any length, taken in chunk by chunk. A file that can't be opened counts as empty.
fn read_sheet(rt: &impl Files, path: &str, store: &mut [u8]) -> Taken
    requires { store_bytes ≤ length store.old }
    ensures { (text : List ℕ) × Sums text store.new result }
{
    let mut sheet = lines::begin();
    let Ok(mut file) = fs::open(rt, path) else {
        return sheet;
    };
    let mut chunk = [0u8; CHUNK_BYTES];
    for _ in 0..MOST_CHUNKS {
        let n = files::read_full(&mut file, &mut chunk);
        sheet = lines::take_in(sheet, store, &chunk[..n]);
        if n < CHUNK_BYTES {
            return sheet;
        }
    }
    sheet
}

fn main(rt: HostRuntime) -> io::Result<()> {
    let recording = Loaded::from_path(&rt, "drive.rec");
    let mut store = [0u8; lines::STORE_BYTES];
    let mut out = [0u8; lessons::LONGEST];
    let sheet = read_sheet(&rt, "lesson.txt", &mut store);
    let size = hold(&recording, sheet, &store, &mut out);
    rt.write_all(&out[..size])
}

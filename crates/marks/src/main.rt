// Marks the drive in drive.rec by the drill in drill.txt, and prints the sheet.
#![tactic(auto)]

ghost use Rattle.std.specs.Prelude.{take};
ghost use Rattle.io.specs.Counts.{IsPrefixLen};
ghost use Rattle.marks.specs.Marks.{Marks};

use files::Loaded;
use std::io;

// Room for one byte more than is accepted of either file, of the drill beside its newline, so that a longer one is refused
// for its length.
const RECORDING_BYTES: usize = 32_769;

const DRILL_BYTES: usize = 257;

// Writes the sheet of two files, of which the buffers hold the first bytes, to the front of `out`, and answers its length.
fn mark(
    recording: &Loaded<RECORDING_BYTES>,
    drill: &Loaded<DRILL_BYTES>,
    out: &mut [u8; sheet::LONGEST],
) -> usize
    ensures sheet { Marks recording.now.buffer recording.now.filled drill.now.buffer drill.now.filled (take result out.new) }
    ensures count { IsPrefixLen result out.new }
{
    let text = files::drill_of(drill.bytes());
    marking::sheet_of(recording.bytes(), text, out)
}

fn main(rt: HostRuntime) -> io::Result<()> {
    let recording = Loaded::from_path(&rt, "drive.rec");
    let drill = Loaded::from_path(&rt, "drill.txt");
    let mut out = [0u8; sheet::LONGEST];
    let size = mark(&recording, &drill, &mut out);
    rt.write_all(&out[..size])
}

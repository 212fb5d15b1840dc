// Runs the finder on the cases of standard input, and writes what each call returns and what it left in both buffers.
//
// A case is five numbers of four bytes, low byte first: the lengths of recording and drill, the words of the answer and
// of the work buffer, and the zones that `front` is told (the largest of these numbers stands for the largest `usize`).
// The recording and the drill follow. Word i of either buffer is i before the call.
#![tactic(auto)]

use case_parts::Case;
use std::io;
use std::io::Read;

// The largest inputs and buffers of a case.
const RECORDING_BYTES: usize = 32_776;

const DRILL_BYTES: usize = 400;

const ANSWER_MOST: usize = 800;

const WORK_MOST: usize = 16_400;

// What the finder promises stays here: that printing is safe and ends needs none of it.
fn call(
    rt: &impl Print,
    recording: &[u8],
    drill: &[u8],
    answer: &mut [i32],
    work: &mut [i32],
    told: usize,
) -> io::Result<()> {
    let outcome = finder::find(recording, drill, answer, work);
    case_prints::print_call(rt, outcome, answer, work, told)
}

// The call of a case, with so many words of both buffers; none where the case has more than the largest.
fn run(rt: &impl Print, case: &Case, recording: &[u8], drill: &[u8]) -> io::Result<()> {
    if ANSWER_MOST < case.answer || WORK_MOST < case.work {
        return Ok(());
    }
    let mut answer = [0i32; ANSWER_MOST];
    let mut work = [0i32; WORK_MOST];
    case_parts::fill(&mut answer);
    case_parts::fill(&mut work);
    call(
        rt,
        recording,
        drill,
        &mut answer[..case.answer],
        &mut work[..case.work],
        case.told,
    )
}

// The next n bytes of the input, put at the front of the buffer: none where it has no room for them, or not all of them come.
fn next_bytes<'a>(input: &mut impl Read, buffer: &'a mut [u8], n: usize) -> Option<&'a [u8]> {
    if buffer.len() < n || files::read_full(input, &mut buffer[..n]) < n {
        return None;
    }
    Some(&buffer[..n])
}

// The next case of the input with its recording and its drill, if all of it is there.
fn next_case<'a>(
    input: &mut impl Read,
    bytes: &'a mut [u8],
    text: &'a mut [u8],
) -> Option<(Case, &'a [u8], &'a [u8])> {
    let mut head = [0u8; 20];
    next_bytes(input, &mut head, 20)?;
    let case = case_parts::numbers(&head);
    let recording = next_bytes(input, bytes, case.recording)?;
    let drill = next_bytes(input, text, case.drill)?;
    Some((case, recording, drill))
}

fn main(rt: HostRuntime) -> io::Result<()> {
    let mut input = rt.stdin();
    let mut bytes = [0u8; RECORDING_BYTES];
    let mut text = [0u8; DRILL_BYTES];
    for k in 1..1_000_000 {
        let Some((case, recording, drill)) = next_case(&mut input, &mut bytes, &mut text) else {
            break;
        };
        case_parts::print_line(&rt, b"case ", k)?;
        run(&rt, &case, recording, drill)?;
    }
    Ok(())
}

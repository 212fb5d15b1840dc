// What `finder_cases` prints of a call. No contract can speak of what is printed; that printing is safe and ends is proved.
#![tactic(auto)]

use finder::WORK_WORDS;
use outcome::{Outcome, Returned};
use std::io;

fn print_sheet(rt: &impl Print, outcome: Outcome, front: &[i32]) -> io::Result<()> {
    let mut text = [0u8; sheet::LONGEST];
    let Ok(n) = sheet::text(outcome, front, &mut text) else {
        return Ok(());
    };
    case_parts::print_part(rt, &text, n)
}

// What a call returned and left in both buffers, the zones that `front` gives where it is told so many, and the sheet.
pub fn print_call(
    rt: &impl Print,
    outcome: Outcome,
    answer: &[i32],
    work: &[i32],
    told: usize,
) -> io::Result<()> {
    let returned = Returned::from(outcome);
    case_parts::print_returned(rt, returned.number, returned.zones, returned.rounds)?;
    let listed = outcome::front(answer, returned.zones);
    case_parts::print_answer_state(rt, answer, listed.len())?;
    case_parts::print_work_state(rt, work, WORK_WORDS)?;
    let shown = outcome::front(answer, told);
    case_parts::print_line(rt, b"front ", shown.len() as u64)?;
    print_sheet(rt, outcome, listed)
}

// What a call of the finder comes to: a finished list of zones or one of the refusals. `Returned::from` gives the number, zones and rounds of an
// outcome, and `front` gives back the words of the listed zones. Nothing is known here of recordings and drills: which outcome a call has is in
// `calls`.
//
// specs/Outcome.antt has what each outcome returns and leaves, and the front of an answer.
#![tactic(auto)]

ghost use Rattle.std.specs.Prelude.{◌≡◌};
ghost use Rattle.outcome.specs.Outcome.{front_of, number_of, returned};

// A finished list: how many zones it has, and the total of rounds.
#[derive(Clone, Copy)]
pub struct Finished {
    pub zones: usize,
    pub rounds: u64,
}

// The refusals, in the order of their numbers. A call gives the one whose cause holds and no earlier one does; each call has its own list of
// causes, and gives no other.
#[derive(Clone, Copy)]
pub enum Refusal {
    RecordingLength = 1,
    RecordingHead = 2,
    RecordingChange = 3,
    DrillLength = 4,
    DrillForm = 5,
    DrillLetter = 6,
    DrillRange = 7,
    DrillDepth = 8,
    WorkShort = 9,
    Overflow = 10,
    AnswerShort = 11,
    SheetForm = 12,
    RoundsSpent = 13,
}

// What a call comes to.
pub type Outcome = Result<Finished, Refusal>;

// What a call returns: its number (0 where it is accepted), the zones listed and the total of rounds. These are the numbers that the papers
// name and C is given.
#[derive(Clone, Copy)]
pub struct Returned {
    pub number: u32,
    pub zones: usize,
    pub rounds: u64,
}

impl Refusal {
    // The number of the refusal.
    pub fn number(self) -> u32
        ensures { result ≡ number_of self }
    {
        self as u32
    }
}

// The number, zones and rounds of an outcome. A refusal lists nothing and reports no rounds.
impl From<Outcome> for Returned {
    ghost from_gives = { λ o r. r ≡ returned o };

    fn from(outcome: Outcome) -> Returned {
        match outcome {
            Ok(list) => Returned {
                number: 0,
                zones: list.zones,
                rounds: list.rounds,
            },
            Err(refusal) => Returned {
                number: refusal.number(),
                zones: 0,
                rounds: 0,
            },
        }
    }
}

// The filled front of an answer: the words of its first zones, or none where it has room for fewer.
pub fn front(answer: &[i32], zones: usize) -> &[i32]
    ensures words { result.now ≡ front_of answer.now zones }
    ensures place { result.ref_ptr ≡ answer.entry.ref_ptr }
{
    if zones <= answer.len() / words::ZONE_WORDS {
        let n = zones * words::ZONE_WORDS;
        &answer[..n]
    } else {
        &answer[..0]
    }
}

// The refusals of the paper, each with its answer number. What is done answers 0.
ghost use Rattle.std.specs.Prelude.{◌≡◌, ◌+◌, ◌*◌};
ghost use Rattle.rules.specs.Numbered.{refusal_number, answer_of, count_of};

#[derive(Clone, Copy)]
pub enum Refusal {
    SetupLength = 1,
    HostData = 2,
    ReplyRoom = 3,
    Unconfigured = 4,
    NotInTable = 5,
    NoPlace = 6,
    NoneFitted = 7,
    Outside = 8,
    NotAtEight = 9,
    CrossesPage = 10,
    Halted = 11,
    NotValid = 13,
    NotMeaningful = 14,
    OperationRoom = 15,
    WrongPhase = 16,
    Malformed = 17,
    NoDescriptor = 18,
    PastMemory = 19,
    CutRecord = 20,
    UnknownKind = 21,
    PayloadLength = 22,
    NoRecord = 23,
    ShortImage = 24,
    ChangeRoom = 25,
    RecordRoom = 29,
}

impl From<Refusal> for u8 {
    fn from(refusal: Refusal) -> u8
        ensures { result ≡ refusal_number refusal }
    {
        refusal as u8
    }
}

// In one number, for C: the answer, and above it how much was handed out.
pub fn in_one_number(answer: Result<u16, Refusal>) -> u32
    ensures { result ≡ answer_of answer + 256 * count_of answer }
{
    match answer {
        Ok(count) => 256 * count as u32,
        Err(refusal) => u8::from(refusal) as u32,
    }
}

// Document 01, "Numbers of refusal", with the numbers that document 02 adds: why a call was refused.
//
// A function that can refuse answers a `Result`. What C is handed in its place is stated by
// `number` and `index`.
#![tactic(auto)]

ghost use Rattle.std.specs.Prelude.{◌≡◌};
ghost use Rattle.refusals.specs.Refusals.{number, index, number_of, index_of};

// One variant for each number that is in use.
#[derive(Clone, Copy, Debug, PartialEq, Eq)]
pub enum Refusal {
    Bit,
    State,
    Id,
    I2cId,
    Register,
    ReadOnly,
    Config,
    Setting,
    DelayByte,
    LineLength,
    Character,
    Frame,
    Field,
    LineBuffer,
    BlockLength,
    RecordBuffer,
    NoSetting,
    ColumnCount,
    BadColumn { index: u8 },
}

// The papers' number.
impl From<Refusal> for u8 {
    ghost from_gives = { λ refusal answer. answer ≡ number refusal };

    #[tactic(auto, unfolding(crate::specs::Refusals::number))]
    fn from(refusal: Refusal) -> u8 {
        match refusal {
            Refusal::Bit => 1,
            Refusal::State => 2,
            Refusal::Id => 3,
            Refusal::I2cId => 4,
            Refusal::Register => 5,
            Refusal::ReadOnly => 6,
            Refusal::Config => 7,
            Refusal::Setting => 8,
            Refusal::DelayByte => 9,
            Refusal::LineLength => 10,
            Refusal::Character => 11,
            Refusal::Frame => 12,
            Refusal::Field => 13,
            Refusal::LineBuffer => 14,
            Refusal::BlockLength => 15,
            Refusal::RecordBuffer => 16,
            Refusal::NoSetting => 17,
            Refusal::ColumnCount => 27,
            Refusal::BadColumn { index: _ } => 28,
        }
    }
}

impl Refusal {
    // The index that a refusal tells; 0 where it tells none.
    #[tactic(auto, unfolding(crate::specs::Refusals::index))]
    pub fn index(self) -> u8
        ensures { result ≡ index self }
    {
        match self {
            Refusal::BadColumn { index } => index,
            _ => 0,
        }
    }
}

// The number that C is handed: 0 where nothing is refused.
pub fn number_of<T: Copy>(outcome: Result<T, Refusal>) -> u8
    ensures { result ≡ number_of outcome }
{
    match outcome {
        Ok(_) => 0,
        Err(refusal) => u8::from(refusal),
    }
}

// And the index: 0 where none is told.
pub fn index_of<T: Copy>(outcome: Result<T, Refusal>) -> u8
    ensures { result ≡ index_of outcome }
{
    match outcome {
        Ok(_) => 0,
        Err(refusal) => refusal.index(),
    }
}

// Document 01, "Registers" (fresh) and "Well formed": the state of a receiver; "One clock": what a
// clock shows.
//
// It goes by value: it is some 50 bytes of plain data, a refusal hands it back as it came, and a
// caller may keep any copy. Its parts are nested by what changes together. A field that "Well
// formed" has no clause for has a type that is exactly as wide as document 01's range, so that the
// test has the papers' clauses and no others.
#![tactic(auto)]

ghost use Rattle.std.specs.Prelude.{◌≡◌};
ghost use Rattle.receiver_state.specs.State.{is_waiting, fresh_core, fresh_made, fresh_answer};
ghost use Rattle.receiver_state.specs.Shown.{no_outputs};
ghost use Rattle.receiver_state.specs.WellFormed.{well_formed};

use form::{core_ok, held_ok};
use refusals::Refusal;

mod form;

#[repr(C)]
#[derive(Clone, Copy, Default, PartialEq, Eq)]
pub struct Ids {
    pub id: u16,
    pub i2c: u8,
}

// Registers 0 to 3, 20 and 21.
#[repr(C)]
#[derive(Clone, Copy, Default, PartialEq, Eq)]
pub struct Settings {
    pub fine1: u8,
    pub fine2: u8,
    pub coarse: u8,
    pub control: u8,
    pub config2: u8,
    pub config3: u8,
}

// The error counters, and bit 5 of the status.
#[repr(C)]
#[derive(Clone, Copy, Default, PartialEq, Eq)]
pub struct Errors {
    pub single: u16,
    pub double: u8,
    pub status5: u8,
}

#[repr(C)]
#[derive(Clone, Copy, Default, PartialEq, Eq)]
pub struct Counters {
    pub bunch: u16,
    pub event: u32,
}

// The words that a sequence has still to show, and the event number kept for them.
#[repr(C)]
#[derive(Clone, Copy, Default, PartialEq, Eq)]
pub struct Sequence {
    pub left: u8,
    pub event: u32,
}

// All of a receiver but what it keeps of channel B.
#[repr(C)]
#[derive(Clone, Copy, Default, PartialEq, Eq)]
pub struct Core {
    pub ids: Ids,
    pub settings: Settings,
    pub errors: Errors,
    pub counters: Counters,
    pub sequence: Sequence,
}

// What is kept of channel B: the bits of an unfinished frame, the first received most significant; or
// the ones still wanted after a frame with stop bit 0. While waiting, neither.
// C has the bits so, with their count beside them.
#[repr(C)]
#[derive(Clone, Copy, Default, PartialEq, Eq)]
pub struct Held {
    pub count: u8,
    pub wanted: u8,
    pub bits: u64,
}

#[repr(C)]
#[derive(Clone, Copy, Default, PartialEq, Eq)]
pub struct Receiver {
    pub core: Core,
    pub held: Held,
}

// What C is handed for a fresh state: the number of refusal, and the state, all zeros where refused.
#[repr(C)]
#[derive(Clone, Copy)]
pub struct FreshAnswer {
    pub refusal: u8,
    pub receiver: Receiver,
}

impl From<Result<Receiver, Refusal>> for FreshAnswer {
    ghost from_gives = { λ given answer. answer ≡ fresh_made given };

    fn from(given: Result<Receiver, Refusal>) -> FreshAnswer {
        match given {
            Ok(receiver) => FreshAnswer {
                refusal: 0,
                receiver,
            },
            Err(refusal) => FreshAnswer {
                refusal: u8::from(refusal),
                receiver: Receiver::default(),
            },
        }
    }
}

// What a clock shows: trigger output and missed flag, the bus, and the frame that it finished. In this
// order there is no padding. The C interface has flags, strobe and verdict as numbers.
#[repr(C)]
#[derive(Clone, Copy, Default, PartialEq, Eq)]
pub struct Outputs {
    pub trigger: u8,
    pub missed: u8,
    pub number: u16,
    pub strobe: u8,
    pub verdict: u8,
    pub corrected: u8,
    pub place: u8,
    pub word: u32,
}

// What a clock leaves of the core, and what it shows.
#[derive(Clone, Copy)]
pub struct Clocked {
    pub core: Core,
    pub outputs: Outputs,
}

// Every output 0.
pub fn no_outputs() -> Outputs
    ensures { result ≡ no_outputs }
{
    Outputs::default()
}

// Whether the receiver waits for a start bit.
#[tactic(auto, unfolding(crate::specs::State::is_waiting))]
pub fn is_waiting(held: Held) -> bool
    ensures { result ≡ is_waiting held }
{
    held.count == 0 && held.wanted == 0
}

// Whether the state is one that a clock accepts.
#[tactic(auto, unfolding(laws::specs::Tests::every, crate::specs::WellFormed::well_formed))]
pub fn well_formed(receiver: Receiver) -> bool
    ensures { result ≡ well_formed receiver }
{
    core_ok(receiver.core) && held_ok(receiver.held)
}

// The fresh state of these IDs, but for what is kept of channel B: counters at 0, and no sequence.
pub fn fresh_core(ids: Ids) -> Core
    ensures { result ≡ fresh_core ids }
{
    Core {
        ids,
        settings: Settings {
            control: 0x93,
            config2: 0x85,
            config3: 0xA7,
            ..Settings::default()
        },
        errors: Errors {
            status5: 1,
            ..Errors::default()
        },
        ..Core::default()
    }
}

// The fresh state of these IDs.
#[tactic(auto, unfolding(crate::specs::State::fresh_answer, refusals::specs::Refusals::number))]
pub fn fresh(id: u16, i2c: u8) -> Result<Receiver, Refusal>
    ensures { fresh_made result ≡ fresh_answer id i2c }
{
    if id == 0 || id > 16383 {
        return Err(Refusal::Id);
    }
    if i2c > 63 {
        return Err(Refusal::I2cId);
    }
    Ok(Receiver {
        core: fresh_core(Ids { id, i2c }),
        held: Held::default(),
    })
}

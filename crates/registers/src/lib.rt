// Document 01, "Registers", with document 02, Q-4: register reads and register writes between clocks:
// checks and refusals. What a register holds, and what a write does, is in `register_map`.
//
// The state goes by value, in and out: see `receiver_state`.
#![tactic(auto)]

ghost use Rattle.std.specs.Prelude.{◌≡◌};
ghost use Rattle.refusals.specs.Refusals.{number_of};
ghost use Rattle.registers.specs.Access.{read_given, read_answer, write_refusal, write_given, write_answer};

use receiver_state::{Receiver, well_formed};
use refusals::{Refusal, number_of};
use register_map::{config_wrong, in_map, read_only, register_byte, without_setting, write_byte};

// What C is handed for a read: the number of refusal, and the byte.
#[repr(C)]
#[derive(Clone, Copy)]
pub struct ReadAnswer {
    pub refusal: u8,
    pub byte: u8,
}

impl From<Result<u8, Refusal>> for ReadAnswer {
    ghost from_gives = { λ given answer. answer ≡ read_given given };

    fn from(given: Result<u8, Refusal>) -> ReadAnswer {
        ReadAnswer {
            refusal: number_of(given),
            byte: given.unwrap_or(0),
        }
    }
}

// What C is handed for a write: the number of refusal, and the state.
#[repr(C)]
#[derive(Clone, Copy)]
pub struct WriteAnswer {
    pub refusal: u8,
    pub receiver: Receiver,
}

// A refused write hands back the state as it came. Each case returns by itself: see `clock_outcome`.
#[inline(always)]
pub fn write_given(receiver: Receiver, given: Result<Receiver, Refusal>) -> WriteAnswer
    ensures { result ≡ write_given receiver given }
{
    match given {
        Ok(next) => {
            return WriteAnswer {
                refusal: 0,
                receiver: next,
            };
        }
        Err(refusal) => {
            return WriteAnswer {
                refusal: u8::from(refusal),
                receiver,
            };
        }
    }
}

// Of a state that is well formed: which write is refused.
#[tactic(auto, unfolding(crate::specs::Access::write_refusal, refusals::specs::Refusals::number))]
fn check_write(number: u8, value: u8) -> Result<(), Refusal>
    ensures { number_of result ≡ write_refusal number value }
{
    if !in_map(number) {
        Err(Refusal::Register)
    } else if read_only(number) {
        Err(Refusal::ReadOnly)
    } else if without_setting(number, value) {
        Err(Refusal::NoSetting)
    } else if config_wrong(number, value) {
        Err(Refusal::Config)
    } else {
        Ok(())
    }
}

// The byte that a register holds.
#[inline(always)]
#[tactic(auto, unfolding(crate::specs::Access::read_answer, crate::specs::Access::read_refusal, refusals::specs::Refusals::number))]
pub fn read(receiver: Receiver, number: u8) -> Result<u8, Refusal>
    ensures { read_given result ≡ read_answer receiver number }
{
    if !well_formed(receiver) {
        Err(Refusal::State)
    } else if in_map(number) {
        Ok(register_byte(receiver.core, number))
    } else {
        Err(Refusal::Register)
    }
}

// The state after a byte was written to a register.
#[inline(always)]
#[tactic(auto, using(refusals::proofs::Laws::none_is_success), unfolding(crate::specs::Access::write_answer, refusals::specs::Refusals::number))]
pub fn write(receiver: Receiver, number: u8, value: u8) -> Result<Receiver, Refusal>
    ensures { write_given receiver result ≡ write_answer receiver number value }
{
    if !well_formed(receiver) {
        return Err(Refusal::State);
    }
    check_write(number, value)?;
    Ok(Receiver {
        core: write_byte(receiver.core, number, value),
        ..receiver
    })
}

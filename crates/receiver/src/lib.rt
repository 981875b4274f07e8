// Document 01, "One clock": one clock of a receiver, checked and unchecked.
//
// The state goes by value, in and out: see `receiver_state`. Columns are only read, and are lent: the
// public clock passes document 01's table down.
#![tactic(auto)]

ghost use Rattle.std.specs.Prelude.{◌≡◌};
ghost use Rattle.frame.specs.Columns.{columns_of, tables};
ghost use Rattle.receiver.specs.Clock.{accepted, clocked_answer, step_answer, refused_clock, clock_answer, clock_outcome};

use channel_b::{Taken, held_after, take_bit};
use frame::{Columns, decode_finished, own_columns};
use idle_clock::idle_clock;
use receiver_state::{Clocked, Held, Outputs, Receiver, no_outputs, well_formed};
use refusals::Refusal;
use verdicts::finish;

// What a clock leaves, and what it shows.
#[derive(Clone, Copy)]
pub struct Stepped {
    pub receiver: Receiver,
    pub outputs: Outputs,
}

// What C is handed by a clock.
#[repr(C)]
#[derive(Clone, Copy)]
pub struct ClockAnswer {
    pub refusal: u8,
    pub receiver: Receiver,
    pub outputs: Outputs,
}

// The same as C is handed it: with a refusal the state as it came, and every output 0. Each case returns
// by itself: with one exit for both a clock takes 5 % longer.
#[inline(always)]
pub fn clock_outcome(receiver: Receiver, outcome: Result<Stepped, Refusal>) -> ClockAnswer
    ensures { result ≡ clock_outcome receiver outcome }
{
    match outcome {
        Ok(done) => {
            return ClockAnswer {
                refusal: 0,
                receiver: done.receiver,
                outputs: done.outputs,
            };
        }
        Err(refusal) => {
            return refuse_clock(u8::from(refusal), receiver);
        }
    }
}

// A refused clock: the state as it came, and every output 0. It is said of every number.
#[inline(always)]
pub fn refuse_clock(refusal: u8, receiver: Receiver) -> ClockAnswer
    ensures { result ≡ refused_clock refusal receiver }
{
    ClockAnswer {
        refusal,
        receiver,
        outputs: no_outputs(),
    }
}

// What a clock leaves and shows that is not refused.
#[inline(always)]
pub fn answered(clocked: Clocked, held: Held) -> Stepped
    ensures { accepted result ≡ clocked_answer held clocked }
{
    Stepped {
        receiver: Receiver {
            core: clocked.core,
            held,
        },
        outputs: clocked.outputs,
    }
}

// A clock without a check: what it gives is said for every state and every bit, and is the clock of
// what the checks let through. Where no frame finishes, steps 1 and 2 are all. Each case has an exit
// of its own, and steps 1 and 2 are called in each: so the compiler needs no memory for what the two
// have in common. It has several callers, and the single clock is slower where it is not inlined.
#[inline(always)]
#[tactic(auto, unfolding(crate::specs::Clock::step_answer))]
pub fn step(columns: Columns, receiver: Receiver, trigger: u8, data: u8) -> Stepped
    ensures { accepted result ≡ step_answer (tables columns.entry) receiver trigger «data» }
{
    match take_bit(receiver.held, data) {
        Taken::Unfinished(held) => answered(idle_clock(receiver.core, trigger), held),
        Taken::Finished { kind, number } => {
            let idle = idle_clock(receiver.core, trigger);
            let frame = decode_finished(columns, kind, number);
            answered(finish(kind, frame, idle), held_after(number))
        }
    }
}

// One clock over any columns, with a bit of channel A, the trigger, and one of channel B, the data. The
// two go apart, as C hands them over.
#[inline(always)]
#[tactic(auto, using(laws::proofs::Rules::picks), unfolding(crate::specs::Clock::clock_answer, refusals::specs::Refusals::number))]
pub fn clock_over(
    columns: Columns,
    receiver: Receiver,
    trigger: u8,
    data: u8,
) -> Result<Stepped, Refusal>
    ensures { clock_outcome receiver result ≡ clock_answer (tables columns.entry) receiver trigger «data» }
{
    if !well_formed(receiver) {
        return Err(Refusal::State);
    }
    if trigger > 1 {
        return Err(Refusal::Bit);
    }
    if data > 1 {
        return Err(Refusal::Bit);
    }
    Ok(step(columns, receiver, trigger, data))
}

// The same over document 01's table.
#[inline(always)]
pub fn clock(receiver: Receiver, trigger: u8, data: u8) -> Result<Stepped, Refusal>
    ensures { clock_outcome receiver result ≡ clock_answer columns_of receiver trigger «data» }
{
    clock_over(own_columns(), receiver, trigger, data)
}

// Document 01, "Frames on channel B" and "One clock": a whole frame sent to a receiver in one call.
//
// The state goes by value, in and out: see `receiver_state`. Columns are only read, and are lent: the
// functions without them pass document 01's down.
#![tactic(auto)]

ghost use Rattle.std.specs.Prelude.{◌≡◌, true, ◌<◌, ◌≤◌, ◌/◌, ◌%◌, ◌^◌};
ghost use Rattle.frame.specs.Numbers.{frame_bits, is_frame};
ghost use Rattle.frame.specs.Columns.{columns_of, tables};
ghost use Rattle.frame.specs.Bits.{bits_of};
ghost use Rattle.receiver_state.specs.State.{receiver, nothing_held, is_waiting};
ghost use Rattle.receiver_state.specs.WellFormed.{ReceiverFacts};
ghost use Rattle.receiver.specs.Clock.{accepted, clock_outcome};
ghost use Rattle.whole_frame.specs.WholeFrame.{clocks_answer, no_clock, receive_answer, settled_clock};
ghost use Rattle.whole_frame.specs.ByFormat.{kind_of, receive_by_format};

use channel_b::held_after;
use frame::{Columns, Kind, decode_finished, frame_bits, is_frame, own_columns};
use idle_clock::{rest_for, settle};
use receiver::{Stepped, answered, step};
use receiver_state::{Clocked, Core, Held, Receiver, is_waiting, no_outputs, well_formed};
use refusals::Refusal;
use verdicts::finish;

// The bit of a number at a place, 0 the least.
fn bit_at(number: u64, place: u8) -> u8
    requires { place < 64 }
    ensures { result ≡ number / 2 ^ place % 2 }
{
    ((number >> place) % 2) as u8
}

// So many bits of a number, one a clock, without triggers, on a state that is known to be well formed.
// This is for receivers that hold bits of another frame or want ones.
#[inline(never)]
#[tactic(auto, unfolding(frame::specs::Bits::bits_of, crate::specs::WholeFrame::clocks_answer))]
fn receive_bits(columns: Columns, receiver: Receiver, count: u8, number: u64) -> Stepped
    requires { (ReceiverFacts receiver) × (count ≤ 64) }
    ensures { accepted result ≡ clocks_answer (tables columns.entry) (no_clock receiver) (bits_of count number) }
{
    let mut done = Stepped {
        receiver,
        outputs: no_outputs(),
    };
    for place in (0..count).rev() {
        done = step(columns, done.receiver, 0, bit_at(number, place));
    }
    done
}

// A whole frame on a receiver that waits: its clocks before the last only count, and end what was
// under way, so they are done at once.
#[inline(always)]
fn receive_waiting(columns: Columns, receiver: Receiver, kind: Kind, number: u64) -> Stepped
    requires { (ReceiverFacts receiver) × (is_waiting receiver.held ≡ true) × (is_frame kind number ≡ true) }
    ensures { accepted result ≡ clocks_answer (tables columns.entry) (no_clock receiver) (bits_of (frame_bits kind) number) }
{
    let core = rest_for(settle(receiver.core), frame_bits(kind) as usize);
    let outputs = no_outputs();
    let idle = Clocked { core, outputs };
    let frame = decode_finished(columns, kind, number);
    answered(finish(kind, frame, idle), held_after(number))
}

// 41 clocks with a 1 on channel B and no trigger, on a receiver that has this core and wants 41 ones:
// they end what was under way, count, and leave the receiver waiting (`OnesAfter7`). They are done at
// once.
pub fn after_41_ones(core: Core) -> Receiver
    ensures { result ≡ receiver (settled_clock 41 core).core nothing_held }
{
    Receiver {
        core: rest_for(settle(core), 41),
        held: Held::default(),
    }
}

// A whole frame over any columns, one bit a clock, without triggers: what its last clock leaves and
// shows.
// At once or bit by bit is a test of the state, no switch of a caller.
#[inline(always)]
#[tactic(auto, using(laws::proofs::Rules::picks), unfolding(crate::specs::WholeFrame::receive_answer, refusals::specs::Refusals::number))]
pub fn receive_over(
    columns: Columns,
    receiver: Receiver,
    kind: Kind,
    number: u64,
) -> Result<Stepped, Refusal>
    ensures { clock_outcome receiver result ≡ receive_answer (tables columns.entry) receiver kind number }
{
    if !well_formed(receiver) {
        return Err(Refusal::State);
    }
    if !is_frame(kind, number) {
        return Err(Refusal::Frame);
    }
    if is_waiting(receiver.held) {
        return Ok(receive_waiting(columns, receiver, kind, number));
    }
    Ok(receive_bits(columns, receiver, frame_bits(kind), number))
}

// The same over document 01's table.
#[inline(always)]
pub fn receive_frame(receiver: Receiver, kind: Kind, number: u64) -> Result<Stepped, Refusal>
    ensures { clock_outcome receiver result ≡ receive_answer columns_of receiver kind number }
{
    receive_over(own_columns(), receiver, kind, number)
}

// The kind of frame with this format bit; any number but 0 counts as 1. C hands the format over as a
// number, and refusal 12 of one over 1 comes after refusal 2: so it is no TryFrom.
#[tactic(auto, using(laws::proofs::Rules::picks), unfolding(crate::specs::ByFormat::kind_of))]
pub fn kind_of(format: u8) -> Kind
    ensures { result ≡ kind_of format }
{
    match format {
        0 => Kind::Short,
        _ => Kind::Long,
    }
}

// A whole frame over any columns whose kind is given by its format bit, as a line that was read has it.
#[inline(always)]
#[tactic(auto, using(laws::proofs::Rules::picks, crate::proofs::ByFormatLaws::accepted_format), unfolding(crate::specs::ByFormat::receive_by_format, refusals::specs::Refusals::number))]
pub fn receive_by_format_over(
    columns: Columns,
    receiver: Receiver,
    format: u8,
    number: u64,
) -> Result<Stepped, Refusal>
    ensures { clock_outcome receiver result ≡ receive_by_format (tables columns.entry) receiver format number }
{
    if format > 1 {
        if !well_formed(receiver) {
            return Err(Refusal::State);
        }
        return Err(Refusal::Frame);
    }
    // Each kind has a call of its own: with one call for both it takes a fifth more time.
    match kind_of(format) {
        Kind::Short => receive_over(columns, receiver, Kind::Short, number),
        Kind::Long => receive_over(columns, receiver, Kind::Long, number),
    }
}

// The same over document 01's table.
#[inline(always)]
pub fn receive_by_format(receiver: Receiver, format: u8, number: u64) -> Result<Stepped, Refusal>
    ensures { clock_outcome receiver result ≡ receive_by_format columns_of receiver format number }
{
    receive_by_format_over(own_columns(), receiver, format, number)
}

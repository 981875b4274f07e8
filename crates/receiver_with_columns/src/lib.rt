// Document 02, Q-11: clocks, whole frames and blocks with the columns that a caller lends.
//
// The state goes by value, in and out: see `receiver_state`. Columns and a block are only read, and are
// lent by `&`; records go to the caller's own buffer, lent by `&mut`. Columns are no part of the state.
// Parameters stand apart, and the format is a byte, as C hands them over.
#![tactic(auto)]

ghost use Rattle.std.specs.Prelude.{◌≡◌, IfOk, IfErr};
ghost use Rattle.refusals.specs.Refusals.{number, index};
ghost use Rattle.frame.specs.Columns.{tables};
ghost use Rattle.lent_columns.specs.Check.{lent_columns, columns_answer};
ghost use Rattle.lent_columns.specs.Laws.{Passes};
ghost use Rattle.receiver_with_columns.specs.WithColumns.{refused_before, clock_outcome_with, block_outcome_with, clock_with_columns, receive_with_columns, receive_by_format_with_columns, block_done_with, run_block_with_columns};

use frame::{Columns, Kind};
use lent_columns::check_columns;
use receiver::{ClockAnswer, Stepped, clock_outcome, clock_over};
use receiver_state::{Receiver, well_formed};
use refusals::{Refusal, index_of};
use trace::{Running, run_block_over};
use whole_frame::{receive_by_format_over, receive_over};

// What C is handed by a clock that is lent columns.
#[repr(C)]
#[derive(Clone, Copy)]
pub struct ClockWithIndex {
    pub answer: ClockAnswer,
    pub index: u8,
}

// The same as C is handed it.
#[inline(always)]
pub fn clock_with_index(receiver: Receiver, outcome: Result<Stepped, Refusal>) -> ClockWithIndex
    ensures { result ≡ clock_outcome_with receiver outcome }
{
    ClockWithIndex {
        answer: clock_outcome(receiver, outcome),
        index: index_of(outcome),
    }
}

// The columns that are lent on. Refusal 2 comes before those of the columns. Yet the columns are checked
// first: what is called then refuses by 2 itself, and a well-formed state is checked once.
#[inline(always)]
#[tactic(auto, using(laws::proofs::Rules::picks, crate::proofs::Before::refused_by_columns, crate::proofs::Before::refused_by_state))]
fn columns_for_receiver(receiver: Receiver, columns: &[u8]) -> Result<Columns<'_>, Refusal>
    ensures refused { IfErr result (λ refusal. columns_answer (number refusal) (index refusal) ≡ refused_before receiver columns.now) }
    ensures passes { IfOk result (λ lent. Passes columns.now) }
    ensures lent { IfOk result (λ lent. tables lent ≡ lent_columns columns.now) }
{
    match check_columns(columns) {
        Ok(lent) => Ok(lent),
        Err(refusal) => {
            if well_formed(receiver) {
                return Err(refusal);
            }
            Err(Refusal::State)
        }
    }
}

// One clock, with a bit of channel A, the trigger, and one of channel B, the data.
pub fn clock_with_columns(
    receiver: Receiver,
    columns: &[u8],
    trigger: u8,
    data: u8,
) -> Result<Stepped, Refusal>
    ensures { clock_outcome_with receiver result ≡ clock_with_columns receiver columns.now trigger «data» }
{
    let lent = columns_for_receiver(receiver, columns)?;
    clock_over(lent, receiver, trigger, data)
}

// A whole frame, one bit a clock, without triggers: what its last clock leaves and shows.
pub fn receive_frame_with_columns(
    receiver: Receiver,
    columns: &[u8],
    kind: Kind,
    number: u64,
) -> Result<Stepped, Refusal>
    ensures { clock_outcome_with receiver result ≡ receive_with_columns receiver columns.now kind number }
{
    let lent = columns_for_receiver(receiver, columns)?;
    receive_over(lent, receiver, kind, number)
}

// A whole frame whose kind is given by its format bit.
pub fn receive_by_format_with_columns(
    receiver: Receiver,
    columns: &[u8],
    format: u8,
    number: u64,
) -> Result<Stepped, Refusal>
    ensures { clock_outcome_with receiver result ≡ receive_by_format_with_columns receiver columns.now format number }
{
    let lent = columns_for_receiver(receiver, columns)?;
    receive_by_format_over(lent, receiver, format, number)
}

// The clocks of a whole block, with a record of each that has a trigger or finishes a frame.
pub fn run_block_with_columns(
    receiver: Receiver,
    columns: &[u8],
    block: &[u8],
    buffer: &mut [u32],
) -> Result<Running, Refusal>
    ensures { block_done_with (block_outcome_with receiver result) buffer.new ≡ run_block_with_columns receiver columns.now block.now buffer.old }
{
    let tables = columns_for_receiver(receiver, columns)?;
    run_block_over(tables, receiver, block, buffer)
}

// Document 02, Q-3: a block of clocks in one call, the record of each clock that has one, and the
// records in a buffer that a block was run into (the second call).
//
// The state goes by value, as for a single clock, and a record does too. A block and columns are only
// read, and are lent by `&`; records go to the caller's own buffer, lent by `&mut`. The second call takes the buffer
// by `&`, and what comes back is a part of it: nothing is copied, and no number can change.
#![tactic(auto)]

ghost use Rattle.std.specs.Prelude.{◌≡◌};
ghost use Rattle.frame.specs.Columns.{columns_of, tables};
ghost use Rattle.trace.specs.Record.{trace_record};
ghost use Rattle.trace.specs.Filled.{filled_length, filled_part};
ghost use Rattle.trace.specs.Block.{block_done, block_outcome, run_block};

use clocks::{no_byte_over_3, run_clocks};
use frame::{Columns, own_columns};
use receiver_state::{Counters, Outputs, Receiver, well_formed};
use refusals::Refusal;

mod clocks;
mod records;

// The record of one clock of a block.
#[derive(Clone, Copy)]
pub struct TraceRecord {
    pub place: u32,
    pub bunch: u32,
    pub event: u32,
    pub code: u32,
    pub word: u32,
}

// What the clocks of a block left so far: the receiver, and how many records were written.
// Records are counted here, since they are in the buffer that the caller lends: no heap.
#[derive(Clone, Copy)]
pub struct Running {
    pub receiver: Receiver,
    pub records: usize,
}

// How far a block has come: what its clocks left so far, and the place of the next one. The lent block
// and buffer stay apart from it, as the room that is left is a fact of all three: a struct that held
// them would be taken apart in each function, and is no plainer.
#[derive(Clone, Copy)]
pub struct Progress {
    pub run: Running,
    pub next: usize,
}

// The numbers of one record.
pub const RECORD_NUMBERS: usize = 5;

// The most clocks of a block.
pub const BLOCK_CLOCKS: usize = 4096;

// The record of the clock at a place, with these counters before it and these outputs.
// Three parts make it, and no From takes three.
pub fn record_of(place: u32, before: Counters, outputs: Outputs) -> TraceRecord
    ensures { result ≡ trace_record place before outputs }
{
    TraceRecord {
        place,
        bunch: u32::from(before.bunch),
        event: before.event,
        code: u32::from(outputs.verdict)
            + 16 * u32::from(outputs.corrected)
            + 32 * u32::from(outputs.trigger)
            + 64 * u32::from(outputs.missed),
        word: outputs.word,
    }
}

// How many numbers that many records take up; 0 where the buffer has less room. The room is divided,
// so that no product wraps.
#[tactic(auto, using(laws::proofs::Rules::picks), unfolding(crate::specs::Filled::filled_length))]
pub fn filled_length(room: usize, records: usize) -> usize
    ensures { result ≡ filled_length room records }
{
    if records <= room / RECORD_NUMBERS {
        RECORD_NUMBERS * records
    } else {
        0
    }
}

// The front part of the caller's own buffer that so many records take up; its empty front where they
// don't fit.
pub fn filled_part(buffer: &[u32], records: usize) -> &[u32]
    ensures result_value { result.now ≡ filled_part buffer.now records }
    ensures ref_ptr_value { result.ref_ptr ≡ buffer.entry.ref_ptr }
{
    let numbers = filled_length(buffer.len(), records);
    &buffer[..numbers]
}

// The clocks of a whole block over these columns, with a record of each that has a trigger or finishes
// a frame. Block and state are checked once, before the first clock; the columns are not checked here.
// Receiver, block and buffer go apart, as C hands them over.
#[tactic(auto, using(laws::proofs::Rules::picks), unfolding(crate::specs::Block::run_block, refusals::specs::Refusals::number))]
pub fn run_block_over(
    columns: Columns,
    receiver: Receiver,
    block: &[u8],
    buffer: &mut [u32],
) -> Result<Running, Refusal>
    ensures { block_done (block_outcome receiver result) buffer.new ≡ run_block (tables columns.entry) receiver block.now buffer.old }
{
    if !well_formed(receiver) {
        return Err(Refusal::State);
    }
    if block.len() > BLOCK_CLOCKS {
        return Err(Refusal::BlockLength);
    }
    if buffer.len() < RECORD_NUMBERS * block.len() {
        return Err(Refusal::RecordBuffer);
    }
    if !no_byte_over_3(block) {
        return Err(Refusal::Bit);
    }
    Ok(run_clocks(columns, receiver, block, buffer))
}

// The same over document 01's table.
pub fn run_block(receiver: Receiver, block: &[u8], buffer: &mut [u32]) -> Result<Running, Refusal>
    ensures { block_done (block_outcome receiver result) buffer.new ≡ run_block columns_of receiver block.now buffer.old }
{
    run_block_over(own_columns(), receiver, block, buffer)
}

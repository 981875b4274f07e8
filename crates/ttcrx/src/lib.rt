// The C interface: one exported function for each entry point, with its full contract.
// include/ttcrx.h declares them. An answer is a struct or a number, by value. Kinds, flags and refusals
// are numbers, and parameters stand apart, as the header has them.
#![tactic(auto)]

ghost use Rattle.std.specs.Prelude.{◌≡◌, cond};
ghost use Rattle.hamming.specs.Columns.{short_columns, long_columns};
ghost use Rattle.frame.specs.declared.Kind.TheVariants.{Short, Long};
ghost use Rattle.frame.specs.Columns.{columns_of};
ghost use Rattle.frame.specs.Encode.{encode_short, encode_long};
ghost use Rattle.frame.specs.Decode.{decode_frame};
ghost use Rattle.lent_columns.specs.Check.{check_columns};
ghost use Rattle.lent_columns.specs.Frames.{encode_short_with_columns, encode_long_with_columns, decode_with_columns};
ghost use Rattle.receiver_with_columns.specs.WithColumns.{clock_with_columns, receive_with_columns, receive_by_format_with_columns, block_done_with, run_block_with_columns};
ghost use Rattle.stored_line.specs.Read.{read_line, line_answer};
ghost use Rattle.stored_line.specs.Write.{write_done, write_line};
ghost use Rattle.fine_delay.specs.Delay.{setting_to_byte, byte_to_setting};
ghost use Rattle.receiver_state.specs.State.{fresh_answer};
ghost use Rattle.receiver_state.specs.WellFormed.{well_formed};
ghost use Rattle.receiver.specs.Clock.{clock_answer};
ghost use Rattle.whole_frame.specs.WholeFrame.{receive_answer};
ghost use Rattle.whole_frame.specs.ByFormat.{receive_by_format};
ghost use Rattle.trace.specs.Block.{block_done, block_outcome, run_block};
ghost use Rattle.trace.specs.Filled.{filled_length};
ghost use Rattle.registers.specs.Access.{read_answer, write_answer};
ghost use Rattle.line_report.specs.Report.{start_report, report_done, report_input, report_end};
ghost use Rattle.ttcrx.specs.Version.{interface_version};

use fine_delay::{DelayByte, DelaySetting, delay_byte, delay_setting};
use frame::{
    Answer, Encoded, Fields, Kind, decode_long, decode_short, decoder_answer, encode_long,
    encode_short,
};
use lent_columns::{
    ColumnsAnswer, DecodedWithIndex, EncodedWithIndex, check_columns, decode_long_with_columns,
    decode_short_with_columns, decoded_with_index, encode_long_with_columns,
    encode_short_with_columns,
};
use line_report::{Report, Reported, report_end, report_input, start_report};
use receiver::{ClockAnswer, clock, clock_outcome};
use receiver_state::{FreshAnswer, Receiver, fresh, well_formed};
use receiver_with_columns::{
    ClockWithIndex, clock_with_columns, clock_with_index, receive_by_format_with_columns,
    receive_frame_with_columns, run_block_with_columns,
};
use refusals::{Refusal, index_of};
use registers::{ReadAnswer, WriteAnswer, read, write, write_given};
use stored_line::{LineAnswer, Written, read_line, write_line};
use trace::{Running, filled_length, run_block};
use whole_frame::{receive_by_format, receive_frame};

// TTCRX_VERSION of include/ttcrx.h.
pub const VERSION: u32 = 4;

// What a block answers a caller who lends the receiver.
#[repr(C)]
#[derive(Clone, Copy)]
pub struct BlockOutcome {
    pub refusal: u8,
    pub records: usize,
}

// The same for a caller who also lends columns.
#[repr(C)]
#[derive(Clone, Copy)]
pub struct OutcomeWithIndex {
    pub answer: BlockOutcome,
    pub index: u8,
}

#[unsafe(no_mangle)]
pub extern "C" fn ttcrx_version() -> u32
    ensures { result ≡ interface_version }
{
    VERSION
}

#[unsafe(no_mangle)]
pub extern "C" fn ttcrx_encode_short(data: u8) -> Encoded
    ensures { result ≡ encode_short short_columns «data» }
{
    Encoded::from(Ok(encode_short(data)))
}

#[unsafe(no_mangle)]
#[tactic(auto, using(frame::proofs::Numbered::encoded_as_numbered))]
pub extern "C" fn ttcrx_encode_long(address: u16, e: u8, sub: u8, data: u8) -> Encoded
    ensures { result ≡ encode_long long_columns address e sub «data» }
{
    let fields = Fields {
        address,
        e,
        sub,
        data,
    };
    Encoded::from(encode_long(fields))
}

#[unsafe(no_mangle)]
#[tactic(auto, using(frame::proofs::Numbered::decoded_as_numbered))]
pub extern "C" fn ttcrx_decode_short(number: u64) -> Answer
    ensures { result ≡ decode_frame short_columns Short number }
{
    decoder_answer(Kind::Short, decode_short(number))
}

#[unsafe(no_mangle)]
#[tactic(auto, using(frame::proofs::Numbered::decoded_as_numbered))]
pub extern "C" fn ttcrx_decode_long(number: u64) -> Answer
    ensures { result ≡ decode_frame long_columns Long number }
{
    decoder_answer(Kind::Long, decode_long(number))
}

#[unsafe(no_mangle)]
pub extern "C" fn ttcrx_read_line(characters: &[u8]) -> LineAnswer
    ensures { result ≡ line_answer (read_line characters.now) }
{
    LineAnswer::from(read_line(characters))
}

#[unsafe(no_mangle)]
pub extern "C" fn ttcrx_write_short(number: u64, buffer: &mut [u8]) -> Written
    ensures { write_done result buffer.new ≡ write_line Short number buffer.old }
{
    Written::from(write_line(Kind::Short, number, buffer))
}

#[unsafe(no_mangle)]
pub extern "C" fn ttcrx_write_long(number: u64, buffer: &mut [u8]) -> Written
    ensures { write_done result buffer.new ≡ write_line Long number buffer.old }
{
    Written::from(write_line(Kind::Long, number, buffer))
}

#[unsafe(no_mangle)]
pub extern "C" fn ttcrx_delay_byte(setting: u8) -> DelayByte
    ensures { result ≡ setting_to_byte setting }
{
    DelayByte::from(delay_byte(setting))
}

#[unsafe(no_mangle)]
pub extern "C" fn ttcrx_delay_setting(byte: u8) -> DelaySetting
    ensures { result ≡ byte_to_setting byte }
{
    DelaySetting::from(delay_setting(byte))
}

#[unsafe(no_mangle)]
#[tactic(auto, using(laws::proofs::Rules::picks))]
pub extern "C" fn ttcrx_well_formed(receiver: Receiver) -> u8
    ensures { result ≡ cond (well_formed receiver) 1 0 }
{
    u8::from(well_formed(receiver))
}

#[unsafe(no_mangle)]
pub extern "C" fn ttcrx_fresh(id: u16, i2c: u8) -> FreshAnswer
    ensures { result ≡ fresh_answer id i2c }
{
    FreshAnswer::from(fresh(id, i2c))
}

#[unsafe(no_mangle)]
pub extern "C" fn ttcrx_clock(receiver: Receiver, trigger: u8, data: u8) -> ClockAnswer
    ensures { result ≡ clock_answer columns_of receiver trigger «data» }
{
    clock_outcome(receiver, clock(receiver, trigger, data))
}

#[unsafe(no_mangle)]
pub extern "C" fn ttcrx_read(receiver: Receiver, number: u8) -> ReadAnswer
    ensures { result ≡ read_answer receiver number }
{
    ReadAnswer::from(read(receiver, number))
}

#[unsafe(no_mangle)]
pub extern "C" fn ttcrx_write(receiver: Receiver, number: u8, value: u8) -> WriteAnswer
    ensures { result ≡ write_answer receiver number value }
{
    write_given(receiver, write(receiver, number, value))
}

#[unsafe(no_mangle)]
pub extern "C" fn ttcrx_receive(receiver: Receiver, kind: u8, number: u64) -> ClockAnswer
    ensures { result ≡ receive_by_format columns_of receiver kind number }
{
    clock_outcome(receiver, receive_by_format(receiver, kind, number))
}

#[unsafe(no_mangle)]
pub extern "C" fn ttcrx_receive_short(receiver: Receiver, number: u64) -> ClockAnswer
    ensures { result ≡ receive_answer columns_of receiver Short number }
{
    clock_outcome(receiver, receive_frame(receiver, Kind::Short, number))
}

#[unsafe(no_mangle)]
pub extern "C" fn ttcrx_receive_long(receiver: Receiver, number: u64) -> ClockAnswer
    ensures { result ≡ receive_answer columns_of receiver Long number }
{
    clock_outcome(receiver, receive_frame(receiver, Kind::Long, number))
}

// Stores what the clocks of a block left; a refused one writes no byte of the receiver.
fn keep_run(receiver: &mut Receiver, outcome: Result<Running, Refusal>) -> BlockOutcome
    ensures { record { receiver = receiver.new; refusal = result.refusal; records = result.records } ≡ block_outcome receiver.old outcome }
{
    match outcome {
        Ok(run) => {
            *receiver = run.receiver;
            BlockOutcome {
                refusal: 0,
                records: run.records,
            }
        }
        Err(refusal) => BlockOutcome {
            refusal: u8::from(refusal),
            records: 0,
        },
    }
}

// Two functions take the receiver by reference, this one and the one with columns: the board service
// keeps its receiver for weeks. The copy is taken once a block, and stored where the block was accepted:
// a refused one writes no byte of it.
#[unsafe(no_mangle)]
#[tactic(auto, using(crate::proofs::Kept::block_kept))]
pub extern "C" fn ttcrx_run_block(
    receiver: &mut Receiver,
    block: &[u8],
    buffer: &mut [u32],
) -> BlockOutcome
    ensures { block_done (record { refusal = result.refusal; receiver = receiver.new; records = result.records }) buffer.new ≡ run_block columns_of receiver.old block.now buffer.old }
{
    let outcome = run_block(*receiver, block, buffer);
    keep_run(receiver, outcome)
}

#[unsafe(no_mangle)]
pub extern "C" fn ttcrx_check_columns(columns: &[u8]) -> ColumnsAnswer
    ensures { result ≡ check_columns columns.now }
{
    ColumnsAnswer::from(check_columns(columns))
}

#[unsafe(no_mangle)]
pub extern "C" fn ttcrx_encode_short_with_columns(columns: &[u8], data: u8) -> EncodedWithIndex
    ensures { result ≡ encode_short_with_columns columns.now «data» }
{
    EncodedWithIndex::from(encode_short_with_columns(columns, data))
}

#[unsafe(no_mangle)]
pub extern "C" fn ttcrx_encode_long_with_columns(
    columns: &[u8],
    address: u16,
    e: u8,
    sub: u8,
    data: u8,
) -> EncodedWithIndex
    ensures { result ≡ encode_long_with_columns columns.now address e sub «data» }
{
    let fields = Fields {
        address,
        e,
        sub,
        data,
    };
    EncodedWithIndex::from(encode_long_with_columns(columns, fields))
}

#[unsafe(no_mangle)]
pub extern "C" fn ttcrx_decode_short_with_columns(columns: &[u8], number: u64) -> DecodedWithIndex
    ensures { result ≡ decode_with_columns columns.now Short number }
{
    decoded_with_index(Kind::Short, decode_short_with_columns(columns, number))
}

#[unsafe(no_mangle)]
pub extern "C" fn ttcrx_decode_long_with_columns(columns: &[u8], number: u64) -> DecodedWithIndex
    ensures { result ≡ decode_with_columns columns.now Long number }
{
    decoded_with_index(Kind::Long, decode_long_with_columns(columns, number))
}

#[unsafe(no_mangle)]
pub extern "C" fn ttcrx_clock_with_columns(
    receiver: Receiver,
    columns: &[u8],
    trigger: u8,
    data: u8,
) -> ClockWithIndex
    ensures { result ≡ clock_with_columns receiver columns.now trigger «data» }
{
    let outcome = clock_with_columns(receiver, columns, trigger, data);
    clock_with_index(receiver, outcome)
}

#[unsafe(no_mangle)]
pub extern "C" fn ttcrx_receive_with_columns(
    receiver: Receiver,
    columns: &[u8],
    kind: u8,
    number: u64,
) -> ClockWithIndex
    ensures { result ≡ receive_by_format_with_columns receiver columns.now kind number }
{
    let outcome = receive_by_format_with_columns(receiver, columns, kind, number);
    clock_with_index(receiver, outcome)
}

#[unsafe(no_mangle)]
pub extern "C" fn ttcrx_receive_short_with_columns(
    receiver: Receiver,
    columns: &[u8],
    number: u64,
) -> ClockWithIndex
    ensures { result ≡ receive_with_columns receiver columns.now Short number }
{
    let outcome = receive_frame_with_columns(receiver, columns, Kind::Short, number);
    clock_with_index(receiver, outcome)
}

#[unsafe(no_mangle)]
pub extern "C" fn ttcrx_receive_long_with_columns(
    receiver: Receiver,
    columns: &[u8],
    number: u64,
) -> ClockWithIndex
    ensures { result ≡ receive_with_columns receiver columns.now Long number }
{
    let outcome = receive_frame_with_columns(receiver, columns, Kind::Long, number);
    clock_with_index(receiver, outcome)
}

// As `ttcrx_run_block`, with columns.
#[unsafe(no_mangle)]
#[tactic(auto, using(crate::proofs::Kept::block_with_index_kept))]
pub extern "C" fn ttcrx_run_block_with_columns(
    receiver: &mut Receiver,
    columns: &[u8],
    block: &[u8],
    buffer: &mut [u32],
) -> OutcomeWithIndex
    ensures { block_done_with (record { answer = record { refusal = result.answer.refusal; receiver = receiver.new; records = result.answer.records }; index = result.index }) buffer.new ≡ run_block_with_columns receiver.old columns.now block.now buffer.old }
{
    let outcome = run_block_with_columns(*receiver, columns, block, buffer);
    let answer = keep_run(receiver, outcome);
    OutcomeWithIndex {
        answer,
        index: index_of(outcome),
    }
}

// A returned part can't be exported: a caller in C gets its length.
#[unsafe(no_mangle)]
pub extern "C" fn ttcrx_filled_length(room: usize, records: usize) -> usize
    ensures { result ≡ filled_length room records }
{
    filled_length(room, records)
}

#[unsafe(no_mangle)]
pub extern "C" fn ttcrx_report_start() -> Report
    ensures { result ≡ start_report }
{
    start_report()
}

#[unsafe(no_mangle)]
pub extern "C" fn ttcrx_report_input(report: Report, input: &[u8], buffer: &mut [u8]) -> Reported
    ensures { report_done result buffer.new ≡ report_input columns_of report input.now buffer.old }
{
    report_input(report, input, buffer)
}

#[unsafe(no_mangle)]
pub extern "C" fn ttcrx_report_end(report: Report, buffer: &mut [u8]) -> Reported
    ensures { report_done result buffer.new ≡ report_end columns_of report buffer.old }
{
    report_end(report, buffer)
}

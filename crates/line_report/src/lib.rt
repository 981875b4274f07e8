// Document 01, "Stored lines": what the program `ttclines` does to its input, for input that comes
// in pieces of any size.
//
// The report's state goes by value, in and out: it is 72 bytes of plain data. A piece of input
// is only read, and is lent; the text goes to the caller's own buffer, lent to be written.
#![tactic(auto)]

ghost use Rattle.std.specs.Prelude.{◌≡◌, ◌+◌, ◌<◌, ◌≤◌, ◌==◌, length, position};
ghost use Rattle.frame.specs.Columns.{columns_of};
ghost use Rattle.whole_frame.specs.WholeFrame.{LeftWanting};
ghost use Rattle.line_report.specs.Text.{kind_digits, word_digits};
ghost use Rattle.line_report.specs.Output.{feed_line, ones_sent};
ghost use Rattle.line_report.specs.Write.{HasRoom, Puts};
ghost use Rattle.line_report.specs.Turn.{Turned};
ghost use Rattle.line_report.specs.Report.{start_report, until_feed, line_ended, line_end_prints, longest_line, after_last, last_prints, report_done, report_input, report_end};

use frame::Kind;
use part::{empty_part, read_behind, read_part, with_characters};
use receiver::{ClockAnswer, clock_outcome, refuse_clock};
use receiver_state::{Receiver, fresh};
use refusals::Refusal;
use stored_line::StoredFrame;
use text::Printer;
use whole_frame::{after_41_ones, receive_frame};

mod part;
mod text;

// The characters of a line so far, as far as they matter. The C interface keeps them in an array, with
// their count beside it.
#[repr(C)]
#[derive(Clone, Copy)]
pub struct LinePart {
    pub count: u8,
    pub characters: [u8; 11],
}

// What is kept between two pieces of input.
#[repr(C)]
#[derive(Clone, Copy)]
pub struct Report {
    pub receiver: Receiver,
    pub lines: u64,
    pub part: LinePart,
}

// What a call answers: the report, the bytes of input used, the bytes of the buffer written, and the
// room that was wanted where its lack stopped the call. The C interface has 0 where none was.
#[repr(C)]
#[derive(Clone, Copy)]
pub struct Reported {
    pub report: Report,
    pub used: usize,
    pub written: usize,
    pub room_wanted: usize,
}

// The longest text of a line, and that of the end.
pub const LONGEST_LINE: usize = 38;

pub const LONGEST_END: usize = 66;

// A report at the beginning of its input.
pub fn start_report() -> Report
    ensures { result ≡ start_report }
{
    Report {
        receiver: fresh(5, 5).unwrap(),
        lines: 0,
        part: empty_part(),
    }
}

fn first_feed(bytes: &[u8]) -> Option<usize>
    ensures { result ≡ position (λ byte. byte == 10) bytes.now }
{
    bytes.iter().position(|byte| *byte == b'\n')
}

// How many bytes come before the first line feed.
#[tactic(auto, using(crate::proofs::Feed::position_of_feed))]
fn until_feed(bytes: &[u8]) -> usize
    ensures { result ≡ until_feed bytes.now }
{
    first_feed(bytes).unwrap_or(bytes.len())
}

// How many digits the word of a line's frame has.
fn word_digits(line: Result<StoredFrame, Refusal>) -> usize
    ensures { result ≡ word_digits line }
{
    match line {
        Ok(frame) => kind_digits(frame.kind),
        Err(_) => 0,
    }
}

// A number for each kind, as in frame.
fn kind_digits(kind: Kind) -> usize
    ensures { result ≡ kind_digits kind }
{
    match kind {
        Kind::Short => 2,
        Kind::Long => 8,
    }
}

// A line's bits go through the receiver; a refused line has none. The text has the papers' numbers, as C
// is handed them. What the receiver answers is taken apart here: handed on, it was copied once more.
fn feed_line(receiver: Receiver, line: Result<StoredFrame, Refusal>) -> ClockAnswer
    ensures { result ≡ feed_line columns_of receiver line }
{
    match line {
        Ok(StoredFrame { kind, number }) => match kind {
            Kind::Short => clock_outcome(receiver, receive_frame(receiver, Kind::Short, number)),
            Kind::Long => clock_outcome(receiver, receive_frame(receiver, Kind::Long, number)),
        },
        Err(refusal) => refuse_clock(u8::from(refusal), receiver),
    }
}

// Document 02, Q-1: 41 ones follow a line with verdict 7, since the line leaves the receiver wanting
// them.
// The verdict is C's number: `ones_sent` and `LeftWanting` speak of ClockAnswer.
#[tactic(auto, using(laws::proofs::Rules::picks, crate::proofs::Ones::ones_follow), unfolding(crate::specs::Output::ones_sent))]
fn send_ones(answer: ClockAnswer) -> Receiver
    requires { LeftWanting answer }
    ensures { result ≡ ones_sent columns_of answer }
{
    if answer.outputs.verdict == 7 {
        after_41_ones(answer.receiver.core)
    } else {
        answer.receiver
    }
}

// A line ends: its bits go through the receiver, and its text is written. After verdict 7 the 41 ones
// follow.
fn end_line(report: Report, line: Result<StoredFrame, Refusal>, printer: &mut Printer<'_>) -> Report
    requires { HasRoom (line_end_prints columns_of report line) printer.old }
    ensures left { result ≡ line_ended columns_of report line }
    ensures printed { Puts (line_end_prints columns_of report line) printer.old printer.new }
{
    let answer = feed_line(report.receiver, line);
    let lines = report.lines.wrapping_add(1);
    printer.put_line(lines, word_digits(line), answer);
    Report {
        receiver: send_ones(answer),
        lines,
        part: empty_part(),
    }
}

// A last line that has no line feed, unless it is empty.
fn end_last(report: Report, printer: &mut Printer<'_>) -> Report
    requires { printer.old.at + longest_line ≤ length printer.old.out.now }
    ensures left { result ≡ after_last columns_of report }
    ensures printed { Puts (last_prints columns_of report) printer.old printer.new }
{
    if report.part.count == 0 {
        return report;
    }
    end_line(report, read_part(report.part), printer)
}

// Works on to the next line feed, or to the end of the input. There is room for a line's text.
fn report_line(before: Reported, input: &[u8], out: &mut [u8]) -> Reported
    requires { (before.used < length input.now) × (before.written + longest_line ≤ length out.old) }
    ensures { Turned columns_of before result input.now out.old out.new }
{
    let from = before.used;
    let rest = &input[from..];
    let until = until_feed(rest);
    let part = before.report.part;
    if until == rest.len() {
        return Reported {
            report: Report {
                part: with_characters(part, rest),
                ..before.report
            },
            used: input.len(),
            written: before.written,
            room_wanted: 0,
        };
    }
    let line = read_behind(part.count, part.characters, &rest[..until]);
    let mut printer = Printer {
        out,
        at: before.written,
    };
    let report = end_line(before.report, line, &mut printer);
    Reported {
        report,
        used: from + until + 1,
        written: printer.at,
        room_wanted: 0,
    }
}

// Reports the lines that end in a piece of the input, until it is used up or the buffer could not
// hold another line's text. The second `ensures` follows from the first; it serves callers' bounds.
pub fn report_input(report: Report, input: &[u8], out: &mut [u8]) -> Reported
    ensures out_after { report_done result out.new ≡ report_input columns_of report input.now out.old }
    ensures used_in_bounds { (result.used ≤ length input.now) × (result.written ≤ length out.old) }
{
    // Each number is told: a report has no default.
    let mut done = Reported {
        report,
        used: 0,
        written: 0,
        room_wanted: 0,
    };
    // A turn takes a whole line, so it is no `for`.
    while done.used < input.len() {
        if out.len() - done.written < LONGEST_LINE {
            done.room_wanted = LONGEST_LINE;
            return done;
        }
        done = report_line(done, input, out);
    }
    done
}

// The end of input: a last line that has no line feed, and the line of the counts.
pub fn report_end(report: Report, out: &mut [u8]) -> Reported
    ensures out_after { report_done result out.new ≡ report_end columns_of report out.old }
    ensures written_in_bounds { result.written ≤ length out.old }
{
    if out.len() < LONGEST_END {
        return Reported {
            report,
            used: 0,
            written: 0,
            room_wanted: LONGEST_END,
        };
    }
    let mut printer = Printer { out, at: 0 };
    let ended = end_last(report, &mut printer);
    let core = ended.receiver.core;
    printer.put_end(core.errors, core.counters);
    Reported {
        report: ended,
        used: 0,
        written: printer.at,
        room_wanted: 0,
    }
}

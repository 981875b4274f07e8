// Document 01, "Stored lines": the program `ttclines`. It reads standard input, hands each piece to
// `line_report`, and writes what that reports. The contract of `report_whole` says that one call uses
// up the piece that it is given.
#![tactic(auto)]

ghost use Rattle.std.specs.Prelude.{◌≡◌, ◌+◌, ◌*◌, ◌≤◌, length, IfOk};
ghost use Rattle.line_report.specs.Report.{longest_line, longest_end};

use line_report::{
    LONGEST_END, LONGEST_LINE, Report, Reported, report_end, report_input, start_report,
};
use std::io::Read;

// What is kept between two reads: the report, and how much of the output buffer is filled.
// No heap: the buffer is an array of main, so what is filled is told beside it, and in each clause.
#[derive(Clone, Copy)]
pub struct Progress {
    pub report: Report,
    pub filled: usize,
}

// What breaks a report off.
#[derive(Clone, Copy, Debug, PartialEq, Eq)]
enum Failure {
    Read,
    Write,
}

fn write(rt: &impl Print, bytes: &[u8]) -> Result<(), Failure> {
    rt.write_all(bytes).map_err(|_| Failure::Write)
}

// The buffer is written out when less than so much of it is free. Answers how much is filled then.
fn make_room(rt: &impl Print, filled: usize, least: usize, out: &[u8]) -> Result<usize, Failure>
    requires { (filled ≤ length out.now) × (least ≤ length out.now) }
    ensures { IfOk result (λ left. (left ≤ filled) × (left + least ≤ length out.now)) }
{
    if least <= out.len() - filled {
        return Ok(filled);
    }
    write(rt, &out[..filled])?;
    Ok(0)
}

// The lines that end in a piece of the input, after what is in the buffer. With room for a line's
// text for each byte, all of the piece is used.
fn report_whole(report: Report, piece: &[u8], from: usize, out: &mut [u8]) -> Reported
    requires { from + longest_line * length piece.now ≤ length out.old }
    ensures { (result.used ≡ length piece.now) × (from + result.written ≤ length out.new) }
{
    report_input(report, piece, &mut out[from..])
}

// The same, after room was made.
fn report_piece(
    rt: &impl Print,
    progress: &mut Progress,
    piece: &[u8],
    out: &mut [u8],
) -> Result<(), Failure>
    requires { (progress.old.filled ≤ length out.old) × (length piece.now ≤ 4096) × (longest_line * 4096 ≤ length out.old) }
    ensures { progress.new.filled ≤ length out.new }
{
    let from = make_room(rt, progress.filled, LONGEST_LINE * 4096, out)?;
    let done = report_whole(progress.report, piece, from, out);
    progress.report = done.report;
    progress.filled = from + done.written;
    Ok(())
}

// Reads to the end of the input, and reports the lines. A proved loop has to end, and nothing says
// that the input does: there are more turns than any run makes reads.
fn read_all(
    rt: &impl Print,
    stdin: &mut impl Read,
    input: &mut [u8],
    progress: &mut Progress,
    out: &mut [u8],
) -> Result<(), Failure>
    requires { (length input.old ≤ 4096) × (progress.old.filled ≤ length out.old) × (longest_line * 4096 ≤ length out.old) }
    ensures { progress.new.filled ≤ length out.new }
{
    for _ in 0..u64::MAX {
        let count = stdin.read(input).map_err(|_| Failure::Read)?;
        if count == 0 {
            break;
        }
        report_piece(rt, progress, &input[..count], out)?;
    }
    Ok(())
}

// The end of the report, after what is in the buffer.
fn report_last(report: Report, from: usize, out: &mut [u8]) -> usize
    requires { from + longest_end ≤ length out.old }
    ensures { result ≤ length out.new }
{
    let done = report_end(report, &mut out[from..]);
    from + done.written
}

// The end, and what is left in the buffer. After a failed read there is no end.
fn finish(
    rt: &(impl Print + Eprint),
    read: Result<(), Failure>,
    last: Progress,
    out: &mut [u8],
) -> Result<(), Failure>
    requires { (last.filled ≤ length out.old) × (longest_end ≤ length out.old) }
{
    let all = match read {
        Ok(()) => {
            let from = make_room(rt, last.filled, LONGEST_END, out)?;
            report_last(last.report, from, out)
        }
        Err(Failure::Read) => {
            let _ = eprintln!(rt; "ttclines: standard input cannot be read");
            last.filled
        }
        Err(Failure::Write) => return read,
    };
    write(rt, &out[..all])
}

fn main(rt: HostRuntime) {
    // The form that document 01 names: the buffer through which standard input is read.
    let mut input = [0u8; 4096];
    let mut out = [0u8; 262144];
    let mut progress = Progress {
        report: start_report(),
        filled: 0,
    };
    let read = read_all(&rt, &mut rt.stdin(), &mut input, &mut progress, &mut out);
    if finish(&rt, read, progress, &mut out).is_err() {
        let _ = eprintln!(rt; "ttclines: standard output cannot be written");
    }
}

// Document 02, Q-3: blocks on a receiver that is kept from one to the next, the part of the buffer
// that they filled, and every refusal.
// Numbers of the buffer that no block has written are 7.
#![tactic(auto)]

use receiver_state::{Receiver, fresh};
use refusals::{Refusal, number_of};
use std::fmt;
use std::fmt::Display;
use trace::{Running, filled_part, run_block};

// Document 01's encoding of broadcast 03, 00D9, a bit a clock, with a trigger on the last.
const BROADCAST_3: [u8; 16] = [0, 0, 0, 0, 0, 0, 0, 0, 2, 2, 0, 2, 2, 0, 0, 3];

// What is shown of a receiver.
#[derive(Drop)]
struct State(Receiver);

impl Display for State {
    fn fmt<W: fmt::Write>(&self, f: &mut fmt::Formatter<W>) -> fmt::Result {
        let Receiver { core, held } = self.0;
        write!(
            f,
            "bunch counter {}, event counter {}, words left {}, bits held {}",
            core.counters.bunch, core.counters.event, core.sequence.left, held.count
        )
    }
}

// Numbers in a row, each with a space before it.
#[derive(Drop)]
struct Numbers<'a>(&'a [u32]);

impl Display for Numbers<'_> {
    fn fmt<W: fmt::Write>(&self, f: &mut fmt::Formatter<W>) -> fmt::Result {
        for number in self.0 {
            write!(f, " {number}")?;
        }
        Ok(())
    }
}

// A write that fails is not reported: who compares the output sees what is missing. The two check
// programs share no crate, so each has this line.
fn show(rt: &impl Print, line: impl Display + Drop) {
    let _ = rt.println(line);
}

// What the second call hands back.
fn show_filled(rt: &impl Print, buffer: &[u32], records: usize) {
    let part = filled_part(buffer, records);
    show(
        rt,
        format_args!(
            "filled part for {records}: {} numbers:{}",
            part.len(),
            Numbers(part)
        ),
    );
}

// A block, with its answer, its state, the part that it filled and the whole buffer.
// Its parameters are those of run_block.
fn show_block(rt: &impl Print, receiver: Receiver, block: &[u8], buffer: &mut [u32]) -> Receiver {
    let outcome = run_block(receiver, block, buffer);
    let refused = Running {
        receiver,
        records: 0,
    };
    let run = outcome.unwrap_or(refused);
    show(
        rt,
        format_args!(
            "refusal {}, records {}; {}",
            number_of(outcome),
            run.records,
            State(run.receiver)
        ),
    );
    show_filled(rt, buffer, run.records);
    show(rt, format_args!("buffer:{}", Numbers(buffer)));
    run.receiver
}

// The receiver that the last of them leaves.
fn traces(rt: &impl Print, start: Receiver) -> Receiver {
    let mut buffer = [7u32; 85];
    show(
        rt,
        "document 01: triggers on clocks 1, 2 and 4; places count from 0",
    );
    let second = show_block(rt, start, &[3, 3, 2, 3, 2], &mut buffer);
    show(
        rt,
        "\nno trigger and no frame: the bus shows its last word, and no record is written",
    );
    let third = show_block(rt, second, &[2, 2], &mut buffer);
    show(
        rt,
        "\nbroadcast 3, trigger on its last clock: verdict 1, and both counters are cleared",
    );
    let fourth = show_block(rt, third, &BROADCAST_3, &mut buffer);
    show(rt, "\nno clock, and no room");
    show_block(rt, fourth, &[], &mut [])
}

fn fills(rt: &impl Print) {
    let buffer = [7u32, 8, 9, 10, 11, 12, 13, 14, 15, 16];
    show(rt, "\na buffer of 10: none, one, exact fit, one over");
    for records in 0..4 {
        show_filled(rt, &buffer, records);
    }
    show(
        rt,
        "the largest number, and the first of which five times wraps",
    );
    for records in [usize::MAX, usize::MAX / 5 + 1] {
        show_filled(rt, &buffer, records);
    }
    show(rt, "an empty buffer");
    for records in 0..2 {
        show_filled(rt, &[], records);
    }
}

fn refused_blocks(rt: &impl Print, good: Receiver) -> Result<(), Refusal> {
    let ill = Receiver::default();
    let long = [4u8; 4097];
    let most = [2u8; 4096];
    let mut room = [7u32; 20480];
    show(rt, "\n4096 clocks with their exact room");
    show(rt, State(run_block(good, &most, &mut room)?.receiver));
    let mut ten = [7u32; 10];
    let mut nine = [7u32; 9];
    show(rt, "\nroom for two clocks: exact");
    show_block(rt, good, &[3, 2], &mut ten);
    show(rt, "one number short");
    show_block(rt, good, &[3, 2], &mut nine);
    show(rt, "byte 4 in the last place, after a trigger");
    show_block(rt, good, &[3, 4], &mut ten);
    show(
        rt,
        "\nall faults at once: 2, then 15, 16 and 1 as they are mended",
    );
    show_block(rt, ill, &long, &mut ten);
    show_block(rt, good, &long, &mut ten);
    show_block(rt, good, &[4, 4, 4], &mut ten);
    show_block(rt, good, &[4, 4], &mut ten);
    show(rt, "\nno clock on a receiver that is not well formed");
    show_block(rt, ill, &[], &mut ten);
    Ok(())
}

fn run(rt: &impl Print) -> Result<(), Refusal> {
    let last = traces(rt, fresh(5, 5)?);
    fills(rt);
    refused_blocks(rt, last)
}

fn main(rt: HostRuntime) {
    if let Err(refusal) = run(&rt) {
        show(&rt, format_args!("refused by {}", u8::from(refusal)));
    }
}

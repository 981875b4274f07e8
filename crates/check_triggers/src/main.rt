// Document 01's trigger example, and what triggers, wraps, clears, a control write and RESET do to a
// sequence on the bus.
// It prints the number of each clock, then what the clock shows; of a frame's clocks only those that
// show something.
#![tactic(auto)]

ghost use Rattle.std.specs.Prelude.{◌≤◌, ◌<◌};

use frame::{Fields, encode_long, encode_short};
use receiver::clock;
use receiver_state::{Counters, Outputs, Receiver, fresh, no_outputs};
use refusals::Refusal;
use std::fmt;
use std::fmt::Display;

// What is sent: bits of both channels, a clock each. Each channel's stand in a number like those of a
// frame, the first most significant.
#[derive(Clone, Copy)]
struct Sent {
    triggers: u64,
    data: u64,
    clocks: u32,
    ghost fits: { clocks ≤ 64 },
}

// What a clock shows.
// Strobe and verdict are numbers, as in C's Outputs.
#[derive(Drop)]
struct Shown(Outputs);

impl Display for Shown {
    fn fmt<W: fmt::Write>(&self, f: &mut fmt::Formatter<W>) -> fmt::Result {
        if self.0 == no_outputs() {
            return write!(f, " nothing");
        }
        let Outputs {
            trigger,
            missed,
            number,
            strobe,
            verdict,
            corrected,
            word,
            ..
        } = self.0;
        if trigger == 1 {
            write!(f, " trigger")?;
        }
        if missed == 1 {
            write!(f, " missed")?;
        }
        match strobe {
            1 => write!(f, " bunch {number}")?,
            2 => write!(f, " event low {number}")?,
            3 => write!(f, " event high {number}")?,
            _ => {}
        }
        if verdict > 0 {
            write!(f, " verdict {verdict} corrected {corrected} word {word}")?;
        }
        Ok(())
    }
}

// What is shown of a receiver.
#[derive(Drop)]
struct State(Receiver);

impl Display for State {
    fn fmt<W: fmt::Write>(&self, f: &mut fmt::Formatter<W>) -> fmt::Result {
        let core = self.0.core;
        write!(
            f,
            "  bunch counter {}, event counter {}, words left {}",
            core.counters.bunch, core.counters.event, core.sequence.left
        )
    }
}

// A write that fails is not reported: who compares the output sees what is missing. The two check
// programs share no crate, so each has this line.
fn show(rt: &impl Print, line: impl Display + Drop) {
    let _ = rt.println(line);
}

// The bit of a number at a place, 0 the least.
// As bit_at of whole_frame, which is private: three lines are no crate.
fn bit_at(number: u64, place: u32) -> u8
    requires { place < 64 }
{
    ((number >> place) % 2) as u8
}

// The clocks of what is sent; `print` is given the number of each, and what it shows.
fn send<F: Fn(u32, Shown)>(start: Receiver, sent: Sent, print: F) -> Result<Receiver, Refusal>
    requires { F.IsAlwaysCallable print }
{
    let mut receiver = start;
    for place in (0..sent.clocks).rev() {
        let trigger = bit_at(sent.triggers, place);
        let bit = bit_at(sent.data, place);
        let done = clock(receiver, trigger, bit)?;
        print(sent.clocks - place, Shown(done.outputs));
        receiver = done.receiver;
    }
    Ok(receiver)
}

// A frame: of its clocks only those are printed that show something.
fn send_frame(rt: &impl Print, start: Receiver, frame: Sent) -> Result<Receiver, Refusal> {
    send(start, frame, |number, shown| {
        if shown.0 != no_outputs() {
            show(rt, format_args!("{number}{shown}"));
        }
    })
}

// Five idle bits on channel B, with these triggers, and the state that they leave.
fn triggered(rt: &impl Print, start: Receiver, triggers: u64) -> Result<(), Refusal> {
    let idle = Sent {
        triggers,
        data: 0x1F,
        clocks: 5,
    };
    let after = send(start, idle, |number, shown| {
        show(rt, format_args!("{number}{shown}"));
    })?;
    show(rt, State(after));
    Ok(())
}

// A long frame for this receiver.
fn long_frame(sub: u8, data: u8, triggers: u64) -> Result<Sent, Refusal> {
    let fields = Fields {
        address: 5,
        e: 0,
        sub,
        data,
    };
    Ok(Sent {
        triggers,
        data: encode_long(fields)?,
        clocks: 42,
    })
}

fn short_frame(data: u8, triggers: u64) -> Sent {
    Sent {
        triggers,
        data: encode_short(data),
        clocks: 16,
    }
}

// A fresh receiver of ID 5 whose control register was written by a frame; the mode is its bits 1..0.
fn in_mode(rt: &impl Print, control: u8) -> Result<Receiver, Refusal> {
    send_frame(rt, fresh(5, 5)?, long_frame(3, control, 0)?)
}

fn modes(rt: &impl Print) -> Result<(), Refusal> {
    for mode in 0..4 {
        show(rt, format_args!("\nmode {mode}, trigger on clock 1"));
        triggered(rt, in_mode(rt, mode)?, 0x10)?;
    }
    show(
        rt,
        "\nmode 3, triggers on clocks 1, 3 (the last word) and 4",
    );
    triggered(rt, in_mode(rt, 3)?, 0x16)
}

// A fresh receiver but for both counters, which are at their last numbers.
fn before_wraps() -> Result<Receiver, Refusal> {
    let mut receiver = fresh(5, 5)?;
    receiver.core.counters = Counters {
        bunch: 4095,
        event: 0xFF_FFFF,
    };
    Ok(receiver)
}

fn wraps(rt: &impl Print) -> Result<(), Refusal> {
    show(
        rt,
        "\nmode 3, from bunch 4095 and event 16777215, triggers on clocks 1 and 4",
    );
    triggered(rt, before_wraps()?, 0x12)
}

// Broadcasts in mode 3, with triggers on their first and last clock.
fn broadcasts(rt: &impl Print) -> Result<(), Refusal> {
    let cleared = ["the bunch counter", "the event counter", "both counters"];
    for (data, what) in (1..).zip(cleared) {
        show(
            rt,
            format_args!(
                "\nmode 3, broadcast {data} clears {what}, triggers on its first and last clock"
            ),
        );
        let after = send_frame(rt, in_mode(rt, 3)?, short_frame(data, 0x8001))?;
        show(rt, State(after));
        triggered(rt, after, 0)?;
    }
    Ok(())
}

// A long frame for this receiver in mode 3, then five clocks.
fn addressed(rt: &impl Print, frame: Sent, later: u64) -> Result<(), Refusal> {
    let after = send_frame(rt, in_mode(rt, 3)?, frame)?;
    show(rt, State(after));
    triggered(rt, after, later)
}

fn frames(rt: &impl Print) -> Result<(), Refusal> {
    show(rt, "\nmode 3, RESET, trigger on the clock before its last");
    addressed(rt, long_frame(6, 0, 0x0002)?, 0)?;
    show(rt, "\nmode 3, RESET, trigger on its last clock");
    addressed(rt, long_frame(6, 0, 0x0001)?, 0)?;
    show(
        rt,
        "\nmode 3, control write of 0, trigger on the clock before its last; later one more",
    );
    addressed(rt, long_frame(3, 0, 0x0002)?, 0x02)
}

fn run(rt: &impl Print) -> Result<(), Refusal> {
    show(rt, "document 01: triggers on clocks 1, 2 and 4");
    triggered(rt, fresh(5, 5)?, 0x1A)?;
    modes(rt)?;
    wraps(rt)?;
    broadcasts(rt)?;
    frames(rt)
}

fn main(rt: HostRuntime) {
    if let Err(refusal) = run(&rt) {
        show(&rt, format_args!("refused by {}", u8::from(refusal)));
    }
}

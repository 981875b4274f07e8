// Document 01, "One clock", steps 1 and 2 alone: the clock where no frame finishes. They depend
// neither on the frame bits held nor on channel B. Every function takes any core and any trigger.
//
// The core goes by value, like the state that it belongs to.
#![tactic(auto)]

ghost use Rattle.std.specs.Prelude.{◌≡◌};
ghost use Rattle.idle_clock.specs.IdleClock.{continued, started, bus_step, count_clock, idle_clock};
ghost use Rattle.idle_clock.specs.AtRest.{at_rest, settled, rest_for};

use receiver_state::{Clocked, Core, Counters, Outputs, Sequence, no_outputs};

// What the bus shows on a clock, and the sequence that is left. The strobe is a number, as in `Outputs`,
// the struct of C: definitions and theorems speak of it too (`Shows`).
#[derive(Clone, Copy)]
pub struct Bus {
    pub sequence: Sequence,
    pub strobe: u8,
    pub number: u16,
    pub missed: u8,
}

// A constant can't call default.
const NO_SEQUENCE: Sequence = Sequence { left: 0, event: 0 };

// The bus shows nothing, and no sequence is left.
const NO_STROBE: Bus = Bus {
    sequence: NO_SEQUENCE,
    strobe: 0,
    number: 0,
    missed: 0,
};

// The next word of a running sequence.
#[tactic(auto, using(laws::proofs::Rules::picks), unfolding(crate::specs::IdleClock::continued))]
fn continue_sequence(sequence: Sequence, trigger: u8) -> Bus
    ensures { result ≡ continued sequence trigger }
{
    if sequence.left == 2 {
        Bus {
            sequence: Sequence {
                left: 1,
                ..sequence
            },
            strobe: 2,
            number: (sequence.event % 0x1000) as u16,
            missed: trigger,
        }
    } else {
        Bus {
            strobe: 3,
            number: (sequence.event / 0x1000 % 0x1000) as u16,
            missed: trigger,
            ..NO_STROBE
        }
    }
}

// The first word of the sequence that a trigger starts, by the mode: bits 1 and 0 of the control byte.
// The mode stays a number: two bits of the control byte, and `started` has it so.
#[tactic(auto, using(laws::proofs::Rules::picks), unfolding(crate::specs::IdleClock::started))]
fn start_sequence(counters: Counters, mode: u8) -> Bus
    ensures { result ≡ started counters mode }
{
    match mode {
        1 => Bus {
            strobe: 1,
            number: counters.bunch,
            ..NO_STROBE
        },
        2 => Bus {
            sequence: Sequence {
                left: 1,
                event: counters.event,
            },
            strobe: 2,
            number: (counters.event % 0x1000) as u16,
            missed: 0,
        },
        3 => Bus {
            sequence: Sequence {
                left: 2,
                event: counters.event,
            },
            strobe: 1,
            number: counters.bunch,
            missed: 0,
        },
        _ => NO_STROBE,
    }
}

// The counters are those before the clock.
#[tactic(auto, using(laws::proofs::Rules::picks), unfolding(crate::specs::IdleClock::bus_step))]
fn bus_step(sequence: Sequence, counters: Counters, control: u8, trigger: u8) -> Bus
    ensures { result ≡ bus_step sequence counters control trigger }
{
    if sequence.left > 0 {
        continue_sequence(sequence, trigger)
    } else if trigger == 1 {
        start_sequence(counters, control % 4)
    } else {
        NO_STROBE
    }
}

// No counter is too large: what wraps is no more than the remainder drops.
#[tactic(auto, using(laws::proofs::Rules::picks), unfolding(crate::specs::IdleClock::count_clock))]
fn count_clock(counters: Counters, trigger: u8) -> Counters
    ensures { result ≡ count_clock counters trigger }
{
    let bunch = counters.bunch.wrapping_add(1) % 0x1000;
    let event = if trigger == 1 {
        counters.event.wrapping_add(1) % 0x100_0000
    } else {
        counters.event
    };
    Counters { bunch, event }
}

// Steps 1 and 2.
#[tactic(auto, unfolding(crate::specs::IdleClock::idle_clock))]
pub fn idle_clock(core: Core, trigger: u8) -> Clocked
    ensures { result ≡ idle_clock core trigger }
{
    let control = core.settings.control;
    let counters = count_clock(core.counters, trigger);
    let bus = bus_step(core.sequence, core.counters, control, trigger);
    let mut next = core;
    next.counters = counters;
    next.sequence = bus.sequence;
    Clocked {
        core: next,
        outputs: Outputs {
            trigger,
            missed: bus.missed,
            strobe: bus.strobe,
            number: bus.number,
            ..no_outputs()
        },
    }
}

// Whether nothing is under way that a clock without a trigger would go on with.
#[tactic(auto, unfolding(crate::specs::AtRest::at_rest))]
pub fn at_rest(core: Core) -> bool
    ensures { result ≡ at_rest core }
{
    core.sequence.left == 0
}

// The core once all that was under way has ended.
pub fn settle(core: Core) -> Core
    ensures { result ≡ settled core }
{
    Core {
        sequence: NO_SEQUENCE,
        ..core
    }
}

// So many clocks without a trigger, on a core at rest: only the bunch counter moves. The counters are
// changed in a local of their own, where the compiler keeps them in a register: by
// `core.counters.bunch = ..` blocks with a trigger on every clock have three quarters of the speed.
#[tactic(auto, unfolding(crate::specs::AtRest::rest_for))]
pub fn rest_for(core: Core, clocks: usize) -> Core
    ensures { result ≡ rest_for clocks core }
{
    let mut counters = core.counters;
    counters.bunch = ((usize::from(counters.bunch) + clocks % 0x1000) % 0x1000) as u16;
    Core { counters, ..core }
}

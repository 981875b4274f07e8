// Document 02, Q-3: the clocks of a block that was checked. A clock is done by the parts of the
// unchecked step, `take_bit`, `idle_clock`, `decode_finished` and `finish`, and not by `step` itself;
// and clocks at rest are counted together. This is faster (docs/DECISIONS.md, "Blocks of clocks").
ghost use Rattle.std.specs.Prelude.{◌≡◌, true, ◌+◌, ◌*◌, ◌<◌, ◌≤◌, length, position, not, ◌==◌};
ghost use Rattle.frame.specs.Columns.{tables};
ghost use Rattle.idle_clock.specs.IdleClock.{idle_clock};
ghost use Rattle.idle_clock.specs.AtRest.{at_rest};
ghost use Rattle.channel_b.specs.TakeBit.{held_after};
ghost use Rattle.verdicts.specs.Finished.{finished_by};
ghost use Rattle.receiver.specs.Clock.{clocked_answer, step_answer};
ghost use Rattle.trace.specs.Record.{record_numbers};
ghost use Rattle.trace.specs.Block.{trigger_bit, channel_bit, no_byte_over_3};
ghost use Rattle.trace.specs.Run.{leaves, answered_run, clocks_run, at_start, ProgressFacts, rest_progress, idle_progress, Rested, Advanced};

use crate::records::add_record;
use crate::{Progress, Running, record_of};
use channel_b::{Taken, held_after, take_bit, take_ones};
use frame::{Columns, Kind, decode_finished};
use idle_clock::{at_rest, idle_clock, rest_for};
use receiver_state::{Held, Receiver};
use verdicts::finish;

// Whether no byte is over 3. The largest byte is tested once, so that the chain has no exit of its own
// and many bytes are taken at a time.
pub(crate) fn no_byte_over_3(block: &[u8]) -> bool
    ensures { result ≡ no_byte_over_3 block.now }
{
    block.iter().fold(0u8, |largest, &byte| largest.max(byte)) <= 3
}

// A clock that finishes no frame: steps 1 and 2, and what is then held. It has a record only if a
// trigger came.
fn run_unfinished(run: Running, held: Held, place: u32, trigger: u8, buffer: &mut [u32]) -> Running
    requires { (trigger < 2) × (record_numbers * run.records + record_numbers ≤ length buffer.old) }
    ensures { leaves result buffer.new ≡ answered_run run place (clocked_answer held (idle_clock run.receiver.core trigger)) buffer.old }
{
    let before = run.receiver.core.counters;
    let idle = idle_clock(run.receiver.core, trigger);
    let core = idle.core;
    let receiver = Receiver { core, held };
    if trigger == 1 {
        let outputs = idle.outputs;
        return add_record(
            receiver,
            run.records,
            record_of(place, before, outputs),
            buffer,
        );
    }
    Running { receiver, ..run }
}

// A clock that finishes a frame, which always has a record.
fn run_finished(
    columns: Columns,
    run: Running,
    kind: Kind,
    number: u64,
    place: u32,
    trigger: u8,
    buffer: &mut [u32],
) -> Running
    requires { record_numbers * run.records + record_numbers ≤ length buffer.old }
    ensures { leaves result buffer.new ≡ answered_run run place (clocked_answer (held_after number) (finished_by (tables columns.entry) kind number (idle_clock run.receiver.core trigger))) buffer.old }
{
    let before = run.receiver.core.counters;
    let frame = decode_finished(columns, kind, number);
    let clocked = finish(kind, frame, idle_clock(run.receiver.core, trigger));
    let core = clocked.core;
    let outputs = clocked.outputs;
    let held = held_after(number);
    let receiver = Receiver { core, held };
    add_record(
        receiver,
        run.records,
        record_of(place, before, outputs),
        buffer,
    )
}

// One clock of a block, with room for a record. Each kind of frame has a call of its own: with one
// call for both, the clocks that finish no frame take a fifth more time. The match on the kind stays
// within the other: as one nested pattern, blocks with a trigger on every clock have 0.6 of the speed.
//
// Each function that may write a record asks for its room. No type can keep that fact, since the record
// uses the room up.
fn run_clock(columns: Columns, run: Running, place: u32, byte: u8, buffer: &mut [u32]) -> Running
    requires { record_numbers * run.records + record_numbers ≤ length buffer.old }
    ensures { leaves result buffer.new ≡ answered_run run place (step_answer (tables columns.entry) run.receiver (trigger_bit byte) (channel_bit byte)) buffer.old }
{
    let trigger = byte % 2;
    let taken = take_bit(run.receiver.held, byte / 2 % 2);
    match taken {
        Taken::Unfinished(held) => run_unfinished(run, held, place, trigger, buffer),
        Taken::Finished { kind, number } => match kind {
            Kind::Short => run_finished(columns, run, Kind::Short, number, place, trigger, buffer),
            Kind::Long => run_finished(columns, run, Kind::Long, number, place, trigger, buffer),
        },
    }
}

// The functions below ask for `ProgressFacts`. It is no ghost field of `Progress`: it speaks of the
// block too, and the definitions (`rest_progress`, `remaining`) make a `Progress` of any place, so each
// would have to take the proof.
//
// Where clocks at rest lead, up to a place: only the bunch counter and what is held have moved.
fn after_rest(progress: Progress, place: usize, held: Held) -> Progress
    requires { progress.next ≤ place }
    ensures { result ≡ rest_progress place held progress }
{
    let core = rest_for(progress.run.receiver.core, place - progress.next);
    Progress {
        run: Running {
            receiver: Receiver { core, held },
            ..progress.run
        },
        next: place,
    }
}

// The clocks up to the next trigger or finished frame, where the core is at rest. They have no record,
// and are counted together.
fn run_rest(progress: Progress, block: &[u8]) -> Progress
    requires { (ProgressFacts progress block.now) × (at_rest progress.run.receiver.core ≡ true) }
    ensures { Rested block.now progress result }
{
    let mut held = progress.run.receiver.held;
    for at in progress.next..block.len() {
        let byte = block[at];
        if byte % 2 == 1 {
            return after_rest(progress, at, held);
        }
        let Taken::Unfinished(longer) = take_bit(held, byte / 2 % 2) else {
            return after_rest(progress, at, held);
        };
        held = longer;
    }
    after_rest(progress, block.len(), held)
}

// Where idle clocks at rest lead, up to a place, with no frame bit held: each has brought a one.
fn after_idle(progress: Progress, place: usize) -> Progress
    requires { progress.next ≤ place }
    ensures { result ≡ idle_progress place progress }
{
    let wanted = progress.run.receiver.held.wanted;
    let held = take_ones(wanted, place - progress.next);
    after_rest(progress, place, held)
}

// Where the idle clocks end: byte 2 is a clock with channel B at 1 and no trigger. This does not look at
// the ones wanted. Within its caller its loop has no register left, and lines with triggers lose a
// twelfth of their speed.
#[inline(never)]
fn idle_end(bytes: &[u8]) -> Option<usize>
    ensures { result ≡ position (λ byte. not (byte == 2)) bytes.now }
{
    bytes.iter().position(|&byte| byte != 2)
}

// The idle clocks that come next, where the core is at rest and no frame bit is held.
fn run_idle(progress: Progress, block: &[u8]) -> Progress
    requires { (ProgressFacts progress block.now) × (at_rest progress.run.receiver.core ≡ true) × (progress.run.receiver.held.count ≡ 0) }
    ensures { (Rested block.now progress result) × (at_rest result.run.receiver.core ≡ true) }
{
    let next = progress.next;
    let clocks = idle_end(&block[next..]).unwrap_or(block.len() - next);
    after_idle(progress, next + clocks)
}

// The same, or nothing where a frame bit is held.
fn idle_part(progress: Progress, block: &[u8]) -> Progress
    requires { (ProgressFacts progress block.now) × (at_rest progress.run.receiver.core ≡ true) }
    ensures { (Rested block.now progress result) × (at_rest result.run.receiver.core ≡ true) }
{
    if progress.run.receiver.held.count == 0 {
        return run_idle(progress, block);
    }
    progress
}

// The clocks at rest that come next, if any. A trigger is tested first: where triggers are frequent
// it is the reason that there are none. Each test returns by itself: with both in one `&&`, lines full
// of frames lose a fifth of their speed.
fn rest_part(progress: Progress, block: &[u8]) -> Progress
    requires { (ProgressFacts progress block.now) × (progress.next < length block.now) }
    ensures { Rested block.now progress result }
{
    let place = progress.next;
    if block[place] % 2 == 1 {
        return progress;
    }
    if !at_rest(progress.run.receiver.core) {
        return progress;
    }
    let idle = idle_part(progress, block);
    run_rest(idle, block)
}

// Goes on by the clocks at rest that come next, and the clock after them.
fn advance(columns: Columns, progress: Progress, block: &[u8], buffer: &mut [u32]) -> Progress
    requires { (ProgressFacts progress block.now) × (progress.next < length block.now) × (record_numbers * length block.now ≤ length buffer.old) }
    ensures { Advanced (tables columns.entry) block.now progress result buffer.old buffer.new }
{
    let rested = rest_part(progress, block);
    let place = rested.next;
    if place == block.len() {
        return rested;
    }
    let run = run_clock(columns, rested.run, place as u32, block[place], buffer);
    Progress {
        run,
        next: place + 1,
    }
}

// All clocks of a block, one `advance` after the other, each by as many clocks as it says: so no `for`.
// On a state that is known to be well formed, with room for a record of each.
pub(crate) fn run_clocks(
    columns: Columns,
    receiver: Receiver,
    block: &[u8],
    buffer: &mut [u32],
) -> Running
    requires { (ProgressFacts (at_start receiver) block.now) × (record_numbers * length block.now ≤ length buffer.old) }
    ensures { leaves result buffer.new ≡ clocks_run (tables columns.entry) 0 (at_start receiver).run block.now buffer.old }
{
    let run = Running {
        receiver,
        records: 0,
    };
    let mut progress = Progress { run, next: 0 };
    while progress.next < block.len() {
        progress = advance(columns, progress, block, buffer);
    }
    progress.run
}

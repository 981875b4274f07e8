// Document 01, "Fate of a finished frame", with document 02, Q-4 and Q-8: the table of verdicts, as a
// change of what steps 1 and 2 of the same clock leave and show. Every function takes any decoded frame
// and any core.
//
// The core and the outputs go by value, like the state that they belong to.
#![tactic(auto)]

ghost use Rattle.std.specs.Prelude.{◌≡◌};
ghost use Rattle.verdicts.specs.Table.{double_up, cleared_by, foreign, long_row, row_verdict, row_effect, good_row, table_row};
ghost use Rattle.verdicts.specs.Finished.{count_errors, finished};

use frame::{Answer, Fields, Kind};
use receiver_state::{Clocked, Core, Outputs, fresh_core};
use register_map::{clear_bunch, clear_event, store_byte, without_setting};

// The rows of a good long frame.
#[derive(Clone, Copy, Debug, PartialEq, Eq)]
pub enum LongRow {
    Foreign,
    Outside,
    WithoutSetting,
    Store,
    Reset,
    Other,
}

// A row of the table of verdicts: the verdict, and the core after the effect. A verdict is a number, as
// in `Outputs`, the struct of C: definitions and theorems speak of it (`dropped`, `executed`).
#[derive(Clone, Copy)]
pub struct Row {
    pub verdict: u8,
    pub core: Core,
}

// What every finished frame does to the single error counter, which stops at 65535, and to status bit 5.
#[tactic(auto, unfolding(crate::specs::Finished::count_errors, crate::specs::Table::up_to))]
fn count_errors(frame: Answer, core: Core) -> Core
    ensures { result ≡ count_errors frame core }
{
    let mut next = core;
    if frame.corrected == 1 {
        next.errors.single = core.errors.single.saturating_add(1);
    }
    next.errors.status5 = u8::from(frame.verdict != 7);
    next
}

// The double error counter up; it stops at 255.
#[tactic(auto, unfolding(crate::specs::Table::double_up, crate::specs::Table::up_to))]
fn double_up(core: Core) -> Core
    ensures { result ≡ double_up core }
{
    let mut next = core;
    next.errors.double = core.errors.double.saturating_add(1);
    next
}

// A broadcast's bit 0 clears the bunch counter, bit 1 the event counter.
#[tactic(auto, using(laws::proofs::Rules::picks), unfolding(crate::specs::Table::cleared_by))]
fn clear_by(byte: u8, core: Core) -> Core
    ensures { result ≡ cleared_by byte core }
{
    let first = if byte % 2 == 1 {
        clear_bunch(core)
    } else {
        core
    };
    if byte / 2 % 2 == 1 {
        clear_event(first)
    } else {
        first
    }
}

#[tactic(auto, using(laws::proofs::Rules::gates), unfolding(crate::specs::Table::foreign))]
fn is_foreign(address: u16, id: u16) -> bool
    ensures { result ≡ foreign address id }
{
    address != 0 && address != id
}

impl LongRow {
    // Which row a good long frame has, in the table's order.
    #[tactic(auto, using(laws::proofs::Rules::picks), unfolding(crate::specs::Table::long_row))]
    // The sub-address is a byte of the frame: the table names its numbers.
    fn of(fields: Fields, id: u16) -> LongRow
        ensures { result ≡ long_row fields id }
    {
        if is_foreign(fields.address, id) {
            LongRow::Foreign
        } else if fields.e == 1 {
            LongRow::Outside
        } else if without_setting(fields.sub, fields.data) {
            LongRow::WithoutSetting
        } else if fields.sub < 4 {
            LongRow::Store
        } else if fields.sub == 6 {
            LongRow::Reset
        } else {
            LongRow::Other
        }
    }

    fn verdict(self) -> u8
        ensures { result ≡ row_verdict self }
    {
        match self {
            LongRow::Foreign => 5,
            LongRow::Outside => 4,
            LongRow::WithoutSetting => 10,
            LongRow::Store => 2,
            LongRow::Reset => 3,
            LongRow::Other => 6,
        }
    }

    // The rows that are not named have no effect on the core. One arm for all of them keeps `finish`
    // small enough to be inlined.
    fn effect(self, fields: Fields, core: Core) -> Core
        ensures { result ≡ row_effect self fields core }
    {
        match self {
            LongRow::Store => store_byte(fields.sub, fields.data, core),
            LongRow::Reset => fresh_core(core.ids),
            _ => core,
        }
    }
}

// The row of a good frame.
fn good_row(kind: Kind, fields: Fields, core: Core) -> Row
    ensures { result ≡ good_row kind fields core }
{
    match kind {
        Kind::Short => Row {
            verdict: 1,
            core: clear_by(fields.data, core),
        },
        Kind::Long => {
            let chosen = LongRow::of(fields, core.ids.id);
            Row {
                verdict: chosen.verdict(),
                core: chosen.effect(fields, core),
            }
        }
    }
}

// The table. A frame that the decoder gives a verdict is dropped, with a double error.
#[tactic(auto, using(laws::proofs::Rules::picks), unfolding(crate::specs::Table::table_row))]
fn table_row(kind: Kind, frame: Answer, core: Core) -> Row
    ensures { result ≡ table_row kind frame core }
{
    if frame.verdict == 0 {
        good_row(kind, frame.fields, core)
    } else {
        Row {
            verdict: frame.verdict,
            core: double_up(core),
        }
    }
}

// A finished frame, decoded, on what steps 1 and 2 leave and show.
#[tactic(auto, unfolding(crate::specs::Finished::finished))]
pub fn finish(kind: Kind, frame: Answer, idle: Clocked) -> Clocked
    ensures { result ≡ finished kind frame idle }
{
    let done = table_row(kind, frame, count_errors(frame, idle.core));
    Clocked {
        core: done.core,
        outputs: Outputs {
            verdict: done.verdict,
            corrected: frame.corrected,
            place: frame.place,
            word: frame.word,
            ..idle.outputs
        },
    }
}

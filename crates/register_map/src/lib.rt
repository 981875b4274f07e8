// Document 01, "Registers", with document 02, Q-4: which numbers are registers, what each holds, which
// bytes may not be written, and what a write does to the core. Every function takes any number, byte
// and core.
//
// A number stays a byte: frames and C hand it over as one, and the theorems speak of every number.
// The core goes by value, like the state that it belongs to.
#![tactic(auto)]

ghost use Rattle.std.specs.Prelude.{◌≡◌};
ghost use Rattle.register_map.specs.Map.{in_map, register_byte, read_only, without_setting, config_wrong};
ghost use Rattle.register_map.specs.Change.{store_byte, clear_bunch, clear_event, after_write};

use fine_delay::has_setting;
use receiver_state::Core;

// Whether the number is in the map.
#[tactic(auto, unfolding(crate::specs::Map::in_map, laws::specs::OneOf::one_of))]
pub fn in_map(number: u8) -> bool
    ensures { result ≡ in_map number }
{
    matches!(number, 0..=3 | 8..=11 | 16..=18 | 20..=22 | 24..=28)
}

// The IDs and the status.
#[tactic(auto, unfolding(crate::specs::Map::read_only, laws::specs::OneOf::one_of))]
pub fn read_only(number: u8) -> bool
    ensures { result ≡ read_only number }
{
    matches!(number, 16..=18 | 22)
}

// A byte for register 0 or 1 that belongs to no fine delay setting.
#[tactic(auto, unfolding(crate::specs::Map::without_setting))]
pub fn without_setting(number: u8, byte: u8) -> bool
    ensures { result ≡ without_setting number byte }
{
    number < 2 && !has_setting(byte)
}

// A Config byte that differs from the fresh one, 0x85 or 0xA7, in bits 6 to 0.
#[tactic(auto, unfolding(crate::specs::Map::config_wrong))]
pub fn config_wrong(number: u8, value: u8) -> bool
    ensures { result ≡ config_wrong number value }
{
    match number {
        20 => value % 0x80 != 0x05,
        21 => value % 0x80 != 0x27,
        _ => false,
    }
}

// The byte that a register holds, 0 where the number is not in the map. A counter shows its low byte
// first.
#[tactic(auto, unfolding(crate::specs::Map::register_byte))]
pub fn register_byte(core: Core, number: u8) -> u8
    ensures { result ≡ register_byte core number }
{
    match number {
        0 => core.settings.fine1,
        1 => core.settings.fine2,
        2 => core.settings.coarse,
        3 => core.settings.control,
        8 => core.errors.single.to_le_bytes()[0],
        9 => core.errors.single.to_le_bytes()[1],
        10 => core.errors.double,
        11 => 0,
        16 => core.ids.id.to_le_bytes()[0],
        17 => core.ids.id.to_le_bytes()[1],
        18 => core.ids.i2c,
        20 => core.settings.config2,
        21 => core.settings.config3,
        22 => 0xC0 + core.errors.status5 % 2 * 0x20,
        24 => core.counters.bunch.to_le_bytes()[0],
        25 => core.counters.bunch.to_le_bytes()[1],
        26 => core.counters.event.to_le_bytes()[0],
        27 => core.counters.event.to_le_bytes()[1],
        28 => core.counters.event.to_le_bytes()[2],
        _ => 0,
    }
}

// A byte goes to register 0, 1, 2 or 3; any other number changes nothing.
#[tactic(auto, unfolding(crate::specs::Change::stored))]
pub fn store_byte(number: u8, byte: u8, core: Core) -> Core
    ensures { result ≡ store_byte number byte core }
{
    let mut next = core;
    match number {
        0 => next.settings.fine1 = byte,
        1 => next.settings.fine2 = byte,
        2 => next.settings.coarse = byte,
        3 => next.settings.control = byte,
        _ => {}
    }
    next
}

// The bunch counter cleared, by a register write or by a broadcast. Two functions, since
// `ClearLaws` speaks of each.
pub fn clear_bunch(core: Core) -> Core
    ensures { result ≡ clear_bunch core }
{
    let mut next = core;
    next.counters.bunch = 0;
    next
}

// The event counter cleared, by a register write or by a broadcast.
pub fn clear_event(core: Core) -> Core
    ensures { result ≡ clear_event core }
{
    let mut next = core;
    next.counters.event = 0;
    next
}

// The core after a byte was written to a register. Which writes are refused is for `registers` to
// say; here a number that is not in the map, or may not be written, changes nothing.
#[tactic(auto, unfolding(crate::specs::Change::after_write))]
pub fn write_byte(core: Core, number: u8, value: u8) -> Core
    ensures { result ≡ after_write core number value }
{
    let mut next = core;
    match number {
        0..=3 => return store_byte(number, value, core),
        8 | 9 => next.errors.single = 0,
        10 => next.errors.double = 0,
        20 => next.settings.config2 = value,
        21 => next.settings.config3 = value,
        24 | 25 => return clear_bunch(core),
        26..=28 => return clear_event(core),
        _ => {}
    }
    next
}

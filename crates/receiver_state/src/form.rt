// Document 01, "Well formed", with document 02, Q-1 and Q-4: the tests of each part of a state.
#![tactic(auto, using(crate::proofs::HeldBits::over_limit), unfolding(laws::specs::Tests::every, crate::specs::WellFormed::ids_ok, crate::specs::WellFormed::settings_ok, crate::specs::WellFormed::counters_ok, crate::specs::WellFormed::sequence_ok, crate::specs::WellFormed::core_ok, crate::specs::WellFormed::bits_ok, crate::specs::WellFormed::wanted_ok, crate::specs::WellFormed::held_ok))]

ghost use Rattle.std.specs.Prelude.{◌≡◌};
ghost use Rattle.receiver_state.specs.WellFormed.{ids_ok, settings_ok, counters_ok, sequence_ok, core_ok, bits_ok, wanted_ok, held_ok};

use crate::{Core, Counters, Held, Ids, Sequence, Settings};
use fine_delay::has_setting;

fn ids_ok(ids: Ids) -> bool
    ensures { result ≡ ids_ok ids }
{
    (1..=16383).contains(&ids.id) && ids.i2c <= 63
}

// Both fine delays belong to a setting, and bits 6 to 0 of both Config bytes are those of the fresh
// ones.
fn settings_ok(settings: Settings) -> bool
    ensures { result ≡ settings_ok settings }
{
    has_setting(settings.fine1)
        && has_setting(settings.fine2)
        && settings.config2 % 0x80 == 0x05
        && settings.config3 % 0x80 == 0x27
}

fn counters_ok(counters: Counters) -> bool
    ensures { result ≡ counters_ok counters }
{
    counters.bunch < 0x1000 && counters.event < 0x100_0000
}

fn sequence_ok(sequence: Sequence) -> bool
    ensures { result ≡ sequence_ok sequence }
{
    sequence.left <= 2 && sequence.event < 0x100_0000 && (sequence.left > 0 || sequence.event == 0)
}

pub(crate) fn core_ok(core: Core) -> bool
    ensures { result ≡ core_ok core }
{
    ids_ok(core.ids)
        && settings_ok(core.settings)
        && counters_ok(core.counters)
        && sequence_ok(core.sequence)
        && core.errors.status5 <= 1
}

// At most 41 ones are wanted, and none beside frame bits held.
fn wanted_ok(count: u8, wanted: u8) -> bool
    ensures { result ≡ wanted_ok count wanted }
{
    wanted <= 41 && (count == 0 || wanted == 0)
}

// At most 41 bits are held; the first is 0, and none is beyond; from 16 bits on the second is 1.
fn bits_ok(count: u8, bits: u64) -> bool
    ensures { result ≡ bits_ok count bits }
{
    // 41 bits with a first bit of 0 are below 2^40; and the products below fit.
    if count > 41 || bits >= 0x100_0000_0000 {
        return false;
    }
    let limit = 1u64 << count;
    bits * 2 < limit && (count < 16 || bits * 4 >= limit)
}

// Frame bits held, or ones wanted, or neither.
pub(crate) fn held_ok(held: Held) -> bool
    ensures { result ≡ held_ok held }
{
    bits_ok(held.count, held.bits) && wanted_ok(held.count, held.wanted)
}

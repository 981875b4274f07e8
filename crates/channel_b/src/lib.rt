// Document 01, "Frames on channel B", with document 02, Q-1: what is held, the next bit, and what a
// finished frame leaves held. No check number is computed here: that waits for a whole frame. Every
// function takes any value held and any bit.
#![tactic(auto)]

ghost use Rattle.std.specs.Prelude.{◌≡◌, ◌-◌};
ghost use Rattle.receiver_state.specs.State.{wanting_ones};
ghost use Rattle.channel_b.specs.TakeBit.{frame_or_part, between_frames, take_bit, held_after};

use frame::Kind;
use receiver_state::Held;

// What a bit of channel B leaves: what is then held; or a whole frame. Both are outcomes with a name,
// and neither is an absence or an error, so it is no Option and no Result.
#[derive(Clone, Copy)]
pub enum Taken {
    Unfinished(Held),
    Finished { kind: Kind, number: u64 },
}

// What that many bits, read as this number, are: a whole frame, or a part of one. At 42 bits the
// format was tested long before, at 16.
#[tactic(auto, using(laws::proofs::Rules::picks), unfolding(crate::specs::TakeBit::frame_or_part, frame::specs::Numbers::is_frame))]
fn frame_or_part(count: u8, bits: u64) -> Taken
    ensures { result ≡ frame_or_part count bits }
{
    if count == 42 {
        Taken::Finished {
            kind: Kind::Long,
            number: bits,
        }
    } else if count == 16 && bits < 0x4000 {
        Taken::Finished {
            kind: Kind::Short,
            number: bits,
        }
    } else {
        Taken::Unfinished(Held {
            count,
            bits,
            ..Held::default()
        })
    }
}

// So many ones are wanted, and no frame bit is held.
fn wanting(wanted: u8) -> Held
    ensures { result ≡ wanting_ones wanted }
{
    Held {
        wanted,
        ..Held::default()
    }
}

// A bit with no frame bit held: a 0 is the start bit, or begins the run of ones again; a 1 is one less
// to come. So waiting and wanting ones take the same time on an idle line.
#[tactic(auto, using(laws::proofs::Rules::picks), unfolding(crate::specs::TakeBit::between_frames))]
fn between_frames(wanted: u8, bit: u8) -> Held
    ensures { result ≡ between_frames wanted bit }
{
    match (bit, wanted) {
        (0, 0) => Held {
            count: 1,
            ..wanting(0)
        },
        (0, _) => wanting(41),
        _ => wanting(wanted.saturating_sub(1)),
    }
}

// So many ones in a row, with no frame bit held and so many ones wanted: what they leave one after the
// other (`one-Wanted` of `BitLaw`).
pub fn take_ones(wanted: u8, ones: usize) -> Held
    ensures { result ≡ wanting_ones (wanted - ones) }
{
    wanting(usize::from(wanted).saturating_sub(ones) as u8)
}

// One bit of channel B. Count and number wrap, so that any value held can be taken.
#[tactic(auto, using(laws::proofs::Rules::picks), unfolding(crate::specs::TakeBit::take_bit))]
pub fn take_bit(held: Held, bit: u8) -> Taken
    ensures { result ≡ take_bit held bit }
{
    if held.count == 0 {
        Taken::Unfinished(between_frames(held.wanted, bit))
    } else {
        let bits = held.bits.wrapping_mul(2).wrapping_add(u64::from(bit));
        frame_or_part(held.count.wrapping_add(1), bits)
    }
}

// What a finished frame leaves held: nothing, or after a stop bit of 0 the 41 ones wanted.
#[tactic(auto, using(laws::proofs::Rules::picks), unfolding(crate::specs::TakeBit::held_after))]
pub fn held_after(number: u64) -> Held
    ensures { result ≡ held_after number }
{
    if number % 2 == 0 {
        wanting(41)
    } else {
        wanting(0)
    }
}

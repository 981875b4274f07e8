// Document 01, "Registers": fine delay settings and their bytes.
//
// There is no state: a setting or a byte goes by value, and so does the answer.
#![tactic(auto)]

ghost use Rattle.std.specs.Prelude.{◌≡◌, pos};
ghost use Rattle.laws.specs.Remainder.{◌%ℤ◌};
ghost use Rattle.fine_delay.specs.Delay.{byte_of, has_setting, byte_answer, setting_answer, setting_to_byte, byte_to_setting};

use refusals::Refusal;

// What C is handed for a setting: the number of refusal, and the byte.
#[repr(C)]
#[derive(Clone, Copy)]
pub struct DelayByte {
    pub refusal: u8,
    pub byte: u8,
}

impl From<Result<u8, Refusal>> for DelayByte {
    ghost from_gives = { λ given answer. answer ≡ byte_answer given };

    fn from(given: Result<u8, Refusal>) -> DelayByte {
        match given {
            Ok(byte) => DelayByte { refusal: 0, byte },
            Err(refusal) => DelayByte {
                refusal: u8::from(refusal),
                byte: 0,
            },
        }
    }
}

// What C is handed for a byte: the number of refusal, and the setting.
#[repr(C)]
#[derive(Clone, Copy)]
pub struct DelaySetting {
    pub refusal: u8,
    pub setting: u8,
}

impl From<Result<u8, Refusal>> for DelaySetting {
    ghost from_gives = { λ given answer. answer ≡ setting_answer given };

    fn from(given: Result<u8, Refusal>) -> DelaySetting {
        match given {
            Ok(setting) => DelaySetting {
                refusal: 0,
                setting,
            },
            Err(refusal) => DelaySetting {
                refusal: u8::from(refusal),
                setting: 0,
            },
        }
    }
}

// The remainder modulo 16 in the mathematical sense, 0 to 15. It stands alone because `byte_of` hands
// it no negative number: this contract, and its must-fail edits, speak of those too.
fn remainder_16(number: i32) -> i32
    ensures { result ≡ pos (number %ℤ 16) }
{
    number.rem_euclid(16)
}

// The byte of a setting by the rule. It is total: what the rule gives for the numbers over 239 fits a byte too.
fn byte_of(setting: u8) -> u8
    ensures { result ≡ byte_of setting }
{
    let n = setting % 15;
    // Negative where n is the larger: setting 14 gives -14.
    let difference = i32::from(setting / 15) - i32::from(n);
    let m = remainder_16(difference + 14) as u8;
    16 * n + m
}

// The byte of a setting.
#[tactic(auto, using(laws::proofs::Rules::picks), unfolding(crate::specs::Delay::setting_to_byte, refusals::specs::Refusals::number))]
pub fn delay_byte(setting: u8) -> Result<u8, Refusal>
    ensures { byte_answer result ≡ setting_to_byte setting }
{
    if setting > 239 {
        return Err(Refusal::Setting);
    }
    Ok(byte_of(setting))
}

// Whether a byte belongs to a setting.
#[tactic(auto, unfolding(crate::specs::Delay::has_setting))]
pub fn has_setting(byte: u8) -> bool
    ensures { result ≡ has_setting byte }
{
    byte < 240
}

// The setting of a byte.
#[tactic(auto, using(laws::proofs::Rules::picks), unfolding(crate::specs::Delay::byte_to_setting, crate::specs::Delay::setting_of, refusals::specs::Refusals::number))]
pub fn delay_setting(byte: u8) -> Result<u8, Refusal>
    ensures { setting_answer result ≡ byte_to_setting byte }
{
    if !has_setting(byte) {
        return Err(Refusal::DelayByte);
    }
    let n = u16::from(byte / 16);
    let m = u16::from(byte % 16);
    Ok(((15 * m + 16 * n + 30) % 240) as u8)
}

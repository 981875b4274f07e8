// Document 01, "Stored lines": one frame a line, in hexadecimal.
//
// There is no state. Characters are only read, and are lent; the writer's buffer is the caller's
// own, lent to be written.
#![tactic(auto)]

ghost use Rattle.std.specs.Prelude.{◌≡◌, ◌≤◌, ◌<◌, ◌++◌, length, drop};
ghost use Rattle.frame.specs.Numbers.{format_bit};
ghost use Rattle.stored_line.specs.Digits.{digit_answer, digit_character, hex_digits, hex_answer, hex_written};
ghost use Rattle.stored_line.specs.Read.{digit_count, read_as, read_line, refused_line_answer, line_answer};
ghost use Rattle.stored_line.specs.Write.{written_answer, write_done, write_line};

use frame::{Kind, is_frame};
use refusals::Refusal;

// A frame as a line has it.
#[derive(Clone, Copy, Debug, PartialEq, Eq)]
pub struct StoredFrame {
    pub kind: Kind,
    pub number: u64,
}

// What C is told of a line: the number of refusal, and the frame, whose kind is the format bit.
#[repr(C)]
#[derive(Clone, Copy)]
pub struct LineAnswer {
    pub refusal: u8,
    pub kind: u8,
    pub number: u64,
}

// What C is told of a written line: the number of refusal, and how many bytes were written.
#[repr(C)]
#[derive(Clone, Copy)]
pub struct Written {
    pub refusal: u8,
    pub size: u8,
}

// The value of a hexadecimal digit.
#[tactic(auto, unfolding(crate::specs::Digits::digit_value))]
fn digit_value(character: u8) -> Option<u8>
    ensures { result ≡ digit_answer character }
{
    match character {
        b'0'..=b'9' => Some(character - b'0'),
        b'A'..=b'F' => Some(character - b'A' + 10),
        b'a'..=b'f' => Some(character - b'a' + 10),
        _ => None,
    }
}

// What characters spell, unless one of them is no digit. A line has at most 11, so its number fits.
fn hex_number(characters: &[u8]) -> Option<u64>
    requires { length characters.now ≤ 11 }
    ensures { result ≡ hex_answer characters.now }
{
    let mut number = 0;
    for character in characters {
        let digit = digit_value(*character)?;
        number = number * 16 + u64::from(digit);
    }
    Some(number)
}

// How many digits the line of a frame has: a number for each kind, as the paper gives it.
fn digit_count(kind: Kind) -> usize
    ensures { result ≡ digit_count kind }
{
    match kind {
        Kind::Short => 4,
        Kind::Long => 11,
    }
}

// A line of the length of such a frame.
fn read_as(kind: Kind, characters: &[u8]) -> Result<StoredFrame, Refusal>
    requires { length characters.now ≤ 11 }
    ensures { result ≡ read_as kind characters.now }
{
    let number = hex_number(characters).ok_or(Refusal::Character)?;
    if is_frame(kind, number) {
        return Ok(StoredFrame { kind, number });
    }
    Err(Refusal::Frame)
}

// The frame of a line, given as its characters without the line feed.
#[tactic(auto, using(laws::proofs::Rules::picks), unfolding(crate::specs::Read::read_line))]
pub fn read_line(characters: &[u8]) -> Result<StoredFrame, Refusal>
    ensures { result ≡ read_line characters.now }
{
    // Each length returns by itself: with one exit for all a short line takes a quarter more time.
    match characters.len() {
        4 => return read_as(Kind::Short, characters),
        11 => return read_as(Kind::Long, characters),
        _ => {}
    }
    Err(Refusal::LineLength)
}

impl From<Result<StoredFrame, Refusal>> for LineAnswer {
    ghost from_gives = { λ given answer. answer ≡ line_answer given };

    fn from(line: Result<StoredFrame, Refusal>) -> LineAnswer {
        match line {
            Ok(frame) => LineAnswer {
                refusal: 0,
                kind: format_bit(frame.kind),
                number: frame.number,
            },
            Err(refusal) => refused_line_answer(u8::from(refusal)),
        }
    }
}

// A refused line, as C is told of it: the number, and all else 0. It is said of every number.
pub fn refused_line_answer(refusal: u8) -> LineAnswer
    ensures { result ≡ refused_line_answer refusal }
{
    LineAnswer {
        refusal,
        kind: 0,
        number: 0,
    }
}

// The answer in the paper's numbers. It stands beside `From`, since the documents name it.
pub fn line_answer(line: Result<StoredFrame, Refusal>) -> LineAnswer
    ensures { result ≡ line_answer line }
{
    LineAnswer::from(line)
}

// A number for each kind, as in frame.
fn format_bit(kind: Kind) -> u8
    ensures { result ≡ format_bit kind }
{
    match kind {
        Kind::Short => 0,
        Kind::Long => 1,
    }
}

// The capital digit of a value.
// By hand: char::from_digit gives a character, and small letters.
#[tactic(auto, using(laws::proofs::Rules::picks), unfolding(crate::specs::Digits::digit_character))]
fn digit_character(value: u8) -> u8
    requires { value < 16 }
    ensures { result ≡ digit_character value }
{
    if value < 10 {
        b'0' + value
    } else {
        b'A' + (value - 10)
    }
}

// Writes so many digits to the front of the buffer, the last first. `iter_mut().rev()` did not close: the
// check knows nothing of what that adapter leaves.
// Into the buffer of the caller: no heap. It is told how many digits, not what is filled.
fn write_digits(digits: usize, number: u64, buffer: &mut [u8])
    requires { digits ≤ length buffer.old }
    ensures { buffer.new ≡ hex_digits digits number ++ drop digits buffer.old }
{
    let mut rest = number;
    for at in (0..digits).rev() {
        buffer[at] = digit_character((rest % 16) as u8);
        rest /= 16;
    }
}

// Writes the last so many digits of a number to the front of the buffer, if it has room for them.
#[tactic(auto, using(laws::proofs::Rules::picks), unfolding(crate::specs::Digits::hex_written))]
pub fn write_hex(digits: usize, number: u64, buffer: &mut [u8])
    ensures { buffer.new ≡ hex_written digits number buffer.old }
{
    if digits <= buffer.len() {
        write_digits(digits, number, buffer);
    }
}

// Writes the line of a frame, with its line feed, to the front of the buffer. Answers its length.
// Kind and number go apart, as in frame.
pub fn write_line(kind: Kind, number: u64, buffer: &mut [u8]) -> Result<u8, Refusal>
    ensures { write_done (written_answer result) buffer.new ≡ write_line kind number buffer.old }
{
    if !is_frame(kind, number) {
        return Err(Refusal::Frame);
    }
    let digits = digit_count(kind);
    if buffer.len() <= digits {
        return Err(Refusal::LineBuffer);
    }
    buffer[digits] = b'\n';
    write_digits(digits, number, buffer);
    Ok((digits + 1) as u8)
}

impl From<Result<u8, Refusal>> for Written {
    ghost from_gives = { λ given answer. answer ≡ written_answer given };

    fn from(given: Result<u8, Refusal>) -> Written {
        match given {
            Ok(size) => Written { refusal: 0, size },
            Err(refusal) => Written {
                refusal: u8::from(refusal),
                size: 0,
            },
        }
    }
}

// Document 01, "Stored lines": the characters of a line that is cut by the end of a piece of input.
// A line has 4 or 11 characters, so no more than 11 are kept.
ghost use Rattle.std.specs.Prelude.{◌≡◌, ◌≤◌, take};
ghost use Rattle.stored_line.specs.Read.{read_line};
ghost use Rattle.line_report.specs.Report.{line_part, empty_part, long_part, with_character, with_characters, read_part};

use crate::LinePart;
use refusals::Refusal;
use stored_line::{StoredFrame, read_line};

pub(crate) fn empty_part() -> LinePart
    ensures { result ≡ empty_part }
{
    LinePart {
        count: 0,
        characters: [0; 11],
    }
}

// Two functions, since specs/ has `empty_part` and `long_part`.
fn long_part() -> LinePart
    ensures { result ≡ long_part }
{
    LinePart {
        count: 12,
        characters: [0; 11],
    }
}

// One character more.
#[tactic(auto, using(laws::proofs::Rules::picks), unfolding(crate::specs::Report::with_character))]
fn with_character(part: LinePart, character: u8) -> LinePart
    ensures { result ≡ with_character part character }
{
    if part.count < 11 {
        let mut next = part;
        next.characters[part.count as usize] = character;
        next.count += 1;
        next
    } else {
        long_part()
    }
}

// Of a line that is too long no character matters any more.
pub(crate) fn with_characters(part: LinePart, characters: &[u8]) -> LinePart
    ensures { result ≡ with_characters part characters.now }
{
    let mut next = part;
    for character in characters {
        if next.count > 11 {
            return long_part();
        }
        next = with_character(next, *character);
    }
    next
}

// The array is a parameter of its own: as a field it gives the proof no fact of its length.
fn read_first(characters: [u8; 11], count: usize) -> Result<StoredFrame, Refusal>
    requires { count ≤ 11 }
    ensures { result ≡ read_line (take count characters) }
{
    read_line(&characters[..count])
}

// The line, if it ends here.
#[tactic(auto, using(laws::proofs::Rules::picks), unfolding(crate::specs::Report::read_part))]
pub(crate) fn read_part(part: LinePart) -> Result<StoredFrame, Refusal>
    ensures { result ≡ read_part part }
{
    if part.count > 11 {
        Err(Refusal::LineLength)
    } else {
        read_first(part.characters, part.count as usize)
    }
}

// The line that ends after these characters of it and more. One that is not cut needs no copy. Count and
// array come apart, as in `read_first`.
pub(crate) fn read_behind(
    count: u8,
    characters: [u8; 11],
    more: &[u8],
) -> Result<StoredFrame, Refusal>
    ensures { result ≡ read_part (with_characters (line_part count characters) more.now) }
{
    if count == 0 {
        read_line(more)
    } else {
        read_part(with_characters(LinePart { count, characters }, more))
    }
}

// Document 01, "Stored lines", with document 02, Q-8: the text of a line's report, and of the end.
// Each method stores its text where there is room for it, and moves the position behind it.
// By hand: there is no heap, and the contracts name each byte of the caller's buffer. Verdicts and
// refusals are C's numbers: `prints_dash` and `answer_text` speak of them.
ghost use Rattle.std.specs.Prelude.{◌≡◌, ◌+◌, ◌≤◌, [], ◌∷◌, length};
ghost use Rattle.line_report.specs.Text.{decimal, prints_dash, word_text, prints_place, place_text, verdict_text, refusal_text, answer_text, line_text, counts_text, end_text};
ghost use Rattle.line_report.specs.Write.{TextAt, HasRoom, HasRoomForEnd, Puts};

use receiver::ClockAnswer;
use receiver_state::{Counters, Errors, Outputs};
use stored_line::write_hex;

// The caller's buffer, and the position of the next text in it.
#[derive(Drop)]
pub(crate) struct Printer<'a> {
    pub(crate) out: &'a mut [u8],
    pub(crate) at: usize,
}

// The verdicts whose word is printed as `-`.
#[tactic(auto, using(laws::proofs::Rules::picks), unfolding(crate::specs::Text::prints_dash, laws::specs::OneOf::one_of))]
fn prints_dash(verdict: u8) -> bool
    ensures { result ≡ prints_dash verdict }
{
    matches!(verdict, 7 | 8 | 11)
}

// The verdicts with a place. Two lists of numbers, since C has verdicts so; one function over a list
// would be no plainer.
#[tactic(auto, using(laws::proofs::Rules::picks), unfolding(crate::specs::Text::prints_place, laws::specs::OneOf::one_of))]
fn prints_place(verdict: u8) -> bool
    ensures { result ≡ prints_place verdict }
{
    matches!(verdict, 1..=6 | 9 | 10)
}

// By hand, since a formatter answers a Result, and here the room is known. Buffer and position come
// apart: with the printer, whose position is in memory, reports took a tenth more time.
fn write_decimal(number: u64, at: usize, out: &mut [u8]) -> usize
    requires { at + length (decimal number) ≤ length out.old }
    ensures { TextAt result at (decimal number) out.old out.new }
{
    if number < 10 {
        out[at] = b'0' + number as u8;
        return at + 1;
    }
    let last = write_decimal(number / 10, at, out);
    out[last] = b'0' + (number % 10) as u8;
    last + 1
}

// Numbers are widened by `as`, which the check computes; after `u64::from` each text would have to be
// rewritten by what the call ensures.
impl Printer<'_> {
    fn put(&mut self, character: u8)
        requires { HasRoom (character ∷ []) self.old }
        ensures { Puts (character ∷ []) self.old self.new }
    {
        self.out[self.at] = character;
        self.at += 1;
    }

    fn put_decimal(&mut self, number: u64)
        requires { HasRoom (decimal number) self.old }
        ensures { Puts (decimal number) self.old self.new }
    {
        self.at = write_decimal(number, self.at, self.out);
    }

    // A space and a number.
    fn put_field(&mut self, number: u64)
        requires { HasRoom (32 ∷ decimal number) self.old }
        ensures { Puts (32 ∷ decimal number) self.old self.new }
    {
        self.put(b' ');
        self.put_decimal(number);
    }

    fn put_word(&mut self, digits: usize, shown: Outputs)
        requires { HasRoom (word_text digits shown) self.old }
        ensures { Puts (word_text digits shown) self.old self.new }
    {
        if prints_dash(shown.verdict) {
            self.put(b'-');
            return;
        }
        write_hex(digits, shown.word as u64, &mut self.out[self.at..]);
        self.at += digits;
    }

    fn put_place(&mut self, shown: Outputs)
        requires { HasRoom (place_text shown) self.old }
        ensures { Puts (place_text shown) self.old self.new }
    {
        if prints_place(shown.verdict) {
            self.put_field(shown.place as u64);
        }
    }

    // Verdict, corrected flag, word and place.
    fn put_verdict(&mut self, digits: usize, shown: Outputs)
        requires { HasRoom (verdict_text digits shown) self.old }
        ensures { Puts (verdict_text digits shown) self.old self.new }
    {
        self.put_decimal(shown.verdict as u64);
        self.put_field(shown.corrected as u64);
        self.put(b' ');
        self.put_word(digits, shown);
        self.put_place(shown);
    }

    fn put_refusal(&mut self, refusal: u8)
        requires { HasRoom (refusal_text refusal) self.old }
        ensures { Puts (refusal_text refusal) self.old self.new }
    {
        self.put(b'!');
        self.put_field(refusal as u64);
    }

    fn put_answer(&mut self, digits: usize, answer: ClockAnswer)
        requires { HasRoom (answer_text digits answer) self.old }
        ensures { Puts (answer_text digits answer) self.old self.new }
    {
        if answer.refusal == 0 {
            self.put_verdict(digits, answer.outputs);
        } else {
            self.put_refusal(answer.refusal);
        }
    }

    // The report of a line.
    pub(crate) fn put_line(&mut self, number: u64, digits: usize, answer: ClockAnswer)
        requires { HasRoom (line_text number digits answer) self.old }
        ensures { Puts (line_text number digits answer) self.old self.new }
    {
        self.put_decimal(number);
        self.put(b' ');
        self.put_answer(digits, answer);
        self.put(b'\n');
    }

    // The four counts of the end.
    fn put_counts(&mut self, errors: Errors, counters: Counters)
        requires { HasRoom (counts_text errors.single errors.double counters.event counters.bunch) self.old }
        ensures { Puts (counts_text errors.single errors.double counters.event counters.bunch) self.old self.new }
    {
        self.put_field(errors.single as u64);
        self.put_field(errors.double as u64);
        self.put_field(counters.event as u64);
        self.put_field(counters.bunch as u64);
    }

    // The line at the end. A letter a line: a loop over three would need an invariant.
    pub(crate) fn put_end(&mut self, errors: Errors, counters: Counters)
        requires { HasRoomForEnd errors counters self.old }
        ensures printed { Puts (end_text errors.single errors.double counters.event counters.bunch) self.old self.new }
        ensures within { self.new.at ≤ length self.new.out.now }
    {
        self.put(b'e');
        self.put(b'n');
        self.put(b'd');
        self.put_counts(errors, counters);
        self.put(b'\n');
    }
}

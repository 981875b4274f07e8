// Document 01, "Frames on channel B", with document 02, Q-8: frames as numbers, first bit sent most
// significant.
//
// There is no state: fields, words and frame numbers go by value. Columns are only read, and are
// lent: below the public encoders and decoders, every function that needs columns takes them. Kind and
// number go apart, and each kind has an encoder and a decoder: C has them so, and definitions take them so.
#![tactic(auto)]

ghost use Rattle.std.specs.Prelude.{◌≡◌, ◌-◌, ◌%◌, ◌^◌, cond, take, Ok};
ghost use Rattle.hamming.specs.Code.{in_use, by_syndrome};
ghost use Rattle.hamming.specs.Columns.{short_columns, long_columns};
ghost use Rattle.frame.specs.Numbers.{data_bits, frame_bits, is_frame, word_bits, check_bits_of};
ghost use Rattle.frame.specs.Columns.{columns_for, columns_of, tables};
ghost use Rattle.frame.specs.Encode.{word_of, fields_of, encode_word, encode_short, encode_number, encoder_answer};
ghost use Rattle.frame.specs.Place.{place_in, places};
ghost use Rattle.frame.specs.Decode.{fixed_zero, judged_word, judged, bare_answer, good_answer, answer_to, finished_answer, decode_number, decoder_answer};
ghost use Rattle.frame.specs.declared.Kind.TheVariants.{Short, Long};

use hamming::{Word, WrongBit, by_syndrome, check_number, column_table, syndrome};
use refusals::Refusal;

// The two frames: broadcast, and individually addressed.
#[derive(Clone, Copy, Debug, PartialEq, Eq)]
pub enum Kind {
    Short,
    Long,
}

// The columns for each kind of frame. They are only read.
#[derive(Clone, Copy)]
pub struct Columns<'a> {
    pub short: &'a [u8],
    pub long: &'a [u8],
}

// What C is handed by an encoder: the number of refusal, and the frame.
#[repr(C)]
#[derive(Clone, Copy)]
pub struct Encoded {
    pub refusal: u8,
    pub number: u64,
}

// The fields of a frame; in a short one all but the data are 0.
#[repr(C)]
#[derive(Clone, Copy, Default)]
pub struct Fields {
    pub address: u16,
    pub e: u8,
    pub sub: u8,
    pub data: u8,
}

// What a frame is judged to be before a receiver looks at its fields: the rows of the table, of which
// none is an error of the call, so it is no Result.
#[derive(Clone, Copy)]
pub enum Judged {
    StopZero,
    EvenSyndrome,
    OddSyndrome,
    FixedZero { word: u32 },
    Good { word: u32, wrong: Option<WrongBit> },
}

// What C is handed by a decoder. Verdicts are numbers, since C's are, and the table's definitions
// speak of them (`answer_to`).
#[repr(C)]
#[derive(Clone, Copy, Default)]
pub struct Answer {
    pub refusal: u8,
    pub verdict: u8,
    pub corrected: u8,
    pub place: u8,
    pub word: u32,
    pub fields: Fields,
}

impl<'a> Columns<'a> {
    // Those for frames of a kind.
    pub fn of(self, kind: Kind) -> &'a [u8]
        ensures { in_use result.now ≡ tables self.entry kind }
    {
        match kind {
            Kind::Short => self.short,
            Kind::Long => self.long,
        }
    }
}

// Document 01's own columns: "the short frame uses the first eight".
pub fn own_columns() -> Columns<'static>
    ensures { tables result ≡ columns_of }
{
    let table = column_table();
    Columns {
        short: &table[..8],
        long: table,
    }
}

// How many bits such a frame has.
// A number for each kind, as the paper gives it: one table of all of them would be no plainer.
pub fn frame_bits(kind: Kind) -> u8
    ensures { result ≡ frame_bits kind }
{
    match kind {
        Kind::Short => 16,
        Kind::Long => 42,
    }
}

// Whether the start, format and leading bits of a number are those of such a frame.
#[tactic(auto, unfolding(crate::specs::Numbers::is_frame))]
pub fn is_frame(kind: Kind, number: u64) -> bool
    ensures { result ≡ is_frame kind number }
{
    match kind {
        Kind::Short => number < 0x4000,
        Kind::Long => number / 0x100_0000_0000 == 1,
    }
}

// The frame of a word, with its check bits and stop bit. The columns are not checked here.
pub fn encode_word(columns: &[u8], kind: Kind, word: u32) -> u64
    ensures { result ≡ encode_word (in_use columns.now) kind word }
{
    let check = check_number(columns, word) as u64;
    match kind {
        Kind::Short => (word as u64 * 0x20 + check) * 2 + 1,
        Kind::Long => ((0x1_0000_0000 + word as u64) * 0x80 + check) * 2 + 1,
    }
}

// The broadcast of a byte.
pub fn encode_short(data: u8) -> u64
    ensures { encoder_answer (Ok result) ≡ encode_short short_columns «data» }
{
    encode_word(&column_table()[..8], Kind::Short, u32::from(data))
}

// The word of a long frame with these fields. An address or E that is out of range is reduced.
pub fn long_word(fields: Fields) -> u32
    ensures { result ≡ word_of Long (record { address = fields.address % 2 ^ 14; e = fields.e % 2; sub = fields.sub; «data» = fields.«data» }) }
{
    u32::from(fields.address % 0x4000) * 0x4_0000
        + u32::from(fields.e % 2) * 0x2_0000
        + 0x1_0000
        + u32::from(fields.sub) * 0x100
        + u32::from(fields.data)
}

// The individually addressed frame of these fields, over any columns.
#[inline(always)]
#[tactic(auto, using(laws::proofs::Rules::picks), unfolding(crate::specs::Encode::encode_number))]
pub fn encode_fields(columns: &[u8], fields: Fields) -> Result<u64, Refusal>
    ensures { result ≡ encode_number (in_use columns.now) fields.address fields.e fields.sub fields.«data» }
{
    if fields.address > 16383 {
        return Err(Refusal::Field);
    }
    if fields.e > 1 {
        return Err(Refusal::Field);
    }
    Ok(encode_word(columns, Kind::Long, long_word(fields)))
}

// The same over document 01's table.
pub fn encode_long(fields: Fields) -> Result<u64, Refusal>
    ensures { result ≡ encode_number long_columns fields.address fields.e fields.sub fields.«data» }
{
    encode_fields(column_table(), fields)
}

impl From<Result<u64, Refusal>> for Encoded {
    ghost from_gives = { λ given answer. answer ≡ encoder_answer given };

    fn from(given: Result<u64, Refusal>) -> Encoded {
        match given {
            Ok(number) => Encoded { refusal: 0, number },
            Err(refusal) => Encoded {
                refusal: u8::from(refusal),
                number: 0,
            },
        }
    }
}

// The word bits of a frame number, as received.
fn word_bits(kind: Kind, number: u64) -> u32
    ensures { result ≡ word_bits kind number }
{
    match kind {
        Kind::Short => (number / 0x40 % 0x100) as u32,
        Kind::Long => (number / 0x100 % 0x1_0000_0000) as u32,
    }
}

// The check bits of a frame number, as received.
fn check_bits(kind: Kind, number: u64) -> u8
    ensures { result ≡ check_bits_of kind number }
{
    match kind {
        Kind::Short => (number / 2 % 0x20) as u8,
        Kind::Long => (number / 2 % 0x80) as u8,
    }
}

// Whether the fixed bit, which a long frame alone has, is 0.
fn fixed_zero(kind: Kind, word: u32) -> bool
    ensures { result ≡ fixed_zero kind word }
{
    match kind {
        Kind::Short => false,
        Kind::Long => word / 0x1_0000 % 2 == 0,
    }
}

// Rows 8, 11 and 9 of the table of verdicts, by the syndrome of these word bits. The decoder's answer is
// taken apart; the else branch leaves with an uncorrectable verdict, by the number of ones.
#[tactic(auto, using(laws::proofs::Rules::picks))]
fn judge_word(columns: &[u8], kind: Kind, word: u32, syndrome: u8) -> Judged
    ensures { result ≡ judged_word kind syndrome (by_syndrome (in_use columns.now) word syndrome) }
{
    let Some(Word { data, wrong }) = by_syndrome(columns, word, syndrome) else {
        if syndrome.count_ones() % 2 == 0 {
            return Judged::EvenSyndrome;
        }
        return Judged::OddSyndrome;
    };
    if fixed_zero(kind, data) {
        return Judged::FixedZero { word: data };
    }
    Judged::Good { word: data, wrong }
}

// Rows 7, 8, 11 and 9 of the table of verdicts, in its order.
#[tactic(auto, using(laws::proofs::Rules::picks), unfolding(crate::specs::Decode::judged, hamming::specs::Code::decode_word))]
pub fn judge(columns: &[u8], kind: Kind, number: u64) -> Judged
    ensures { result ≡ judged (in_use columns.now) kind number }
{
    if number % 2 == 0 {
        return Judged::StopZero;
    }
    let word = word_bits(kind, number);
    let check = check_bits(kind, number);
    judge_word(columns, kind, word, syndrome(columns, word, check))
}

// The fields of a word.
fn fields_of(kind: Kind, word: u32) -> Fields
    ensures { result ≡ fields_of kind word }
{
    match kind {
        Kind::Short => Fields {
            data: (word % 0x100) as u8,
            ..Fields::default()
        },
        Kind::Long => Fields {
            address: (word / 0x4_0000) as u16,
            e: (word / 0x2_0000 % 2) as u8,
            sub: (word / 0x100 % 0x100) as u8,
            data: (word % 0x100) as u8,
        },
    }
}

// So many places before the last; 0 where there are fewer.
fn place_before(last: u8, bit: usize) -> u8
    ensures { result ≡ last - bit }
{
    usize::from(last).saturating_sub(bit) as u8
}

// The place of the last data bit, and of the last protected bit: a number for each kind, as the paper
// gives them.
fn last_data_place(kind: Kind) -> u8
    ensures { result ≡ data_bits kind }
{
    match kind {
        Kind::Short => 8,
        Kind::Long => 32,
    }
}

fn last_place(kind: Kind) -> u8
    ensures { result ≡ places kind }
{
    match kind {
        Kind::Short => 13,
        Kind::Long => 39,
    }
}

// The place of a wrong bit in the order sent, 0 for none.
// It stays a number, 0 for none: C's Answer has it so, and theorems speak of place_in.
pub fn place_of(kind: Kind, wrong: Option<WrongBit>) -> u8
    ensures { result ≡ place_in kind wrong }
{
    match wrong {
        None => 0,
        Some(WrongBit::Check(bit)) => place_before(last_place(kind), bit),
        Some(WrongBit::Data(bit)) => place_before(last_data_place(kind), bit),
    }
}

// An answer without flag, place and fields: they are all 0.
// Numbers, as C's Answer has them; theorems speak of bare_answer.
pub fn bare_answer(refusal: u8, verdict: u8, word: u32) -> Answer
    ensures { result ≡ bare_answer refusal verdict word }
{
    Answer {
        refusal,
        verdict,
        word,
        ..Answer::default()
    }
}

// The answer to a good frame, with its fields. Flag and wrong bit come apart: it is said of each pair.
#[inline(always)]
#[tactic(auto, using(laws::proofs::Rules::picks))]
pub fn good_answer(kind: Kind, word: u32, corrected: bool, wrong: Option<WrongBit>) -> Answer
    ensures { result ≡ good_answer kind (cond corrected 1 0) (place_in kind wrong) word }
{
    Answer {
        refusal: 0,
        verdict: 0,
        corrected: u8::from(corrected),
        place: place_of(kind, wrong),
        word,
        fields: fields_of(kind, word),
    }
}

// The answer to a frame so judged.
pub fn answer_to(kind: Kind, judged: Judged) -> Answer
    ensures { result ≡ answer_to kind judged }
{
    match judged {
        Judged::StopZero => bare_answer(0, 7, 0),
        Judged::EvenSyndrome => bare_answer(0, 8, 0),
        Judged::OddSyndrome => bare_answer(0, 11, 0),
        Judged::FixedZero { word } => bare_answer(0, 9, word),
        Judged::Good { word, wrong } => good_answer(kind, word, wrong.is_some(), wrong),
    }
}

// What a finished frame says, over the columns of each kind. Start and format were tested before, bit
// by bit or at once, so nothing is refused here. Each kind has calls of its own: with one for both a
// whole frame takes half as long again. Inlined, so that the lengths of the tables are known in it.
#[inline(always)]
#[tactic(auto, unfolding(crate::specs::Decode::finished_answer))]
pub fn decode_finished(columns: Columns, kind: Kind, number: u64) -> Answer
    ensures { result ≡ finished_answer (tables columns.entry) kind number }
{
    match kind {
        Kind::Short => answer_to(Kind::Short, judge(columns.short, Kind::Short, number)),
        Kind::Long => answer_to(Kind::Long, judge(columns.long, Kind::Long, number)),
    }
}

// What a number says as a frame of a kind, over any columns.
#[inline(always)]
#[tactic(auto, using(laws::proofs::Rules::picks), unfolding(crate::specs::Decode::decode_number))]
pub fn decode(columns: Columns, kind: Kind, number: u64) -> Result<Judged, Refusal>
    ensures { result ≡ decode_number (tables columns.entry kind) kind number }
{
    if !is_frame(kind, number) {
        return Err(Refusal::Frame);
    }
    Ok(judge(columns.of(kind), kind, number))
}

// The same over document 01's table: as a short frame.
pub fn decode_short(number: u64) -> Result<Judged, Refusal>
    ensures { result ≡ decode_number short_columns Short number }
{
    decode(own_columns(), Kind::Short, number)
}

// And as a long frame.
pub fn decode_long(number: u64) -> Result<Judged, Refusal>
    ensures { result ≡ decode_number long_columns Long number }
{
    decode(own_columns(), Kind::Long, number)
}

// What C is handed in place of a decoder's answer.
pub fn decoder_answer(kind: Kind, decoded: Result<Judged, Refusal>) -> Answer
    ensures { result ≡ decoder_answer kind decoded }
{
    match decoded {
        Ok(judged) => answer_to(kind, judged),
        Err(refusal) => bare_answer(u8::from(refusal), 0, 0),
    }
}

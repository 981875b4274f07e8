// Document 02, Q-11: the encoder's own columns. The check of the columns that a caller lends, and
// frames encoded and decoded with them.
//
// There is no state. Columns are only read, and are lent.
#![tactic(auto)]

ghost use Rattle.std.specs.Prelude.{◌≡◌, [], ◌^◌, ◌<◌, IfOk, IfSome, length, unwrap_or, Ok};
ghost use Rattle.refusals.specs.Refusals.{number_of, index_of};
ghost use Rattle.frame.specs.Numbers.{check_bits};
ghost use Rattle.frame.specs.Columns.{tables};
ghost use Rattle.frame.specs.Decode.{decode_number};
ghost use Rattle.frame.specs.declared.Kind.TheVariants.{Short, Long};
ghost use Rattle.lent_columns.specs.Check.{lent_columns, column_tests, first_bad, columns_answer, columns_outcome, check_columns};
ghost use Rattle.lent_columns.specs.Frames.{encoded_outcome, decoded_outcome, encode_short_with_columns, encode_long_with_columns, decode_with_columns};
ghost use Rattle.laws.specs.Tests.{every};

use frame::{
    Answer, Columns, Encoded, Fields, Judged, Kind, decode, decoder_answer, encode_fields,
    encode_word,
};
use refusals::{Refusal, index_of, number_of};

// What C is handed by the check of columns: the number of refusal, and the index of the first bad column.
#[repr(C)]
#[derive(Clone, Copy)]
pub struct ColumnsAnswer {
    pub refusal: u8,
    pub index: u8,
}

// And by an encoder that is lent columns.
#[repr(C)]
#[derive(Clone, Copy)]
pub struct EncodedWithIndex {
    pub answer: Encoded,
    pub index: u8,
}

// And by a decoder that is lent columns.
#[repr(C)]
#[derive(Clone, Copy)]
pub struct DecodedWithIndex {
    pub answer: Answer,
    pub index: u8,
}

// How many columns are lent: eight for short frames, then 32 for long ones.
pub const TABLE_LENGTH: usize = 40;

// The numbers that its check bits hold are below this.
// A number for each kind, as in frame.
fn limit(kind: Kind) -> u8
    ensures { result ≡ 2 ^ check_bits kind }
{
    match kind {
        Kind::Short => 0x20,
        Kind::Long => 0x80,
    }
}

// Whether a column is good by itself: "an odd count of ones, three or more, inside 5 or 7 bits". A byte has
// at most eight; as one list of counts the check of a table takes three fifths of the time.
#[tactic(auto, using(laws::proofs::Rules::gates), unfolding(laws::specs::Tests::every, laws::specs::OneOf::one_of))]
fn is_good(kind: Kind, column: u8) -> bool
    ensures { result ≡ every (column_tests (check_bits kind) [] column) }
{
    matches!(column.count_ones(), 3 | 5 | 7) && column < limit(kind)
}

// The index of the first bad column of those lent for a kind of frame. The numbers that earlier columns
// took are kept, so that those columns are not gone through for each.
fn first_bad(kind: Kind, columns: &[u8]) -> Option<usize>
    ensures index { unwrap_or result (length columns.now) ≡ first_bad (check_bits kind) [] columns.now }
    ensures within { IfSome result (λ at. at < length columns.now) }
{
    let mut taken = [false; 128];
    for (at, &column) in columns.iter().enumerate() {
        if !is_good(kind, column) {
            return Some(at);
        }
        let number = usize::from(column);
        if taken[number] {
            return Some(at);
        }
        taken[number] = true;
    }
    None
}

// What refuses the columns that a caller lends. It stands apart from `check_columns`, so that this one is
// inlined, and who goes on knows how many columns each kind has: else a loop over them takes twice the time.
#[inline(never)]
#[tactic(auto, using(laws::proofs::Rules::picks), unfolding(crate::specs::Check::check_columns, refusals::specs::Refusals::number, refusals::specs::Refusals::index))]
fn check_table(columns: &[u8]) -> Result<(), Refusal>
    ensures { columns_answer (number_of result) (index_of result) ≡ check_columns columns.now }
{
    if columns.len() != TABLE_LENGTH {
        return Err(Refusal::ColumnCount);
    }
    if let Some(at) = first_bad(Kind::Short, &columns[..8]) {
        return Err(Refusal::BadColumn { index: at as u8 });
    }
    if let Some(at) = first_bad(Kind::Long, &columns[8..40]) {
        let index = 8 + at as u8;
        return Err(Refusal::BadColumn { index });
    }
    Ok(())
}

// The check of the columns that a caller lends: they are handed on by kinds of frames.
#[inline(always)]
#[tactic(auto, using(crate::proofs::Laws::whole_table))]
pub fn check_columns(columns: &[u8]) -> Result<Columns<'_>, Refusal>
    ensures answer { columns_outcome result ≡ check_columns columns.now }
    ensures lent { IfOk result (λ lent. tables lent ≡ lent_columns columns.now) }
{
    check_table(columns)?;
    Ok(Columns {
        short: &columns[..8],
        long: &columns[8..40],
    })
}

impl<'a> From<Result<Columns<'a>, Refusal>> for ColumnsAnswer {
    ghost from_gives = { λ given answer. answer ≡ columns_outcome given };

    fn from(given: Result<Columns<'a>, Refusal>) -> ColumnsAnswer {
        ColumnsAnswer {
            refusal: number_of(given),
            index: index_of(given),
        }
    }
}

// The broadcast of a byte.
#[tactic(auto, using(crate::proofs::Outcome::short_refused))]
pub fn encode_short_with_columns(columns: &[u8], data: u8) -> Result<u64, Refusal>
    ensures { encoded_outcome result ≡ encode_short_with_columns columns.now «data» }
{
    let lent = check_columns(columns)?;
    Ok(encode_word(lent.short, Kind::Short, u32::from(data)))
}

// The individually addressed frame of these fields.
#[tactic(auto, using(crate::proofs::Outcome::long_refused))]
pub fn encode_long_with_columns(columns: &[u8], fields: Fields) -> Result<u64, Refusal>
    ensures { encoded_outcome result ≡ encode_long_with_columns columns.now fields.address fields.e fields.sub fields.«data» }
{
    let lent = check_columns(columns)?;
    encode_fields(lent.long, fields)
}

impl From<Result<u64, Refusal>> for EncodedWithIndex {
    ghost from_gives = { λ given answer. answer ≡ encoded_outcome given };

    fn from(outcome: Result<u64, Refusal>) -> EncodedWithIndex {
        EncodedWithIndex {
            answer: Encoded::from(outcome),
            index: index_of(outcome),
        }
    }
}

// What a number says as a frame of a kind.
#[tactic(auto, using(crate::proofs::Outcome::decode_refused))]
fn decode_with_columns(columns: &[u8], kind: Kind, number: u64) -> Result<Judged, Refusal>
    ensures answer { decoded_outcome kind result ≡ decode_with_columns columns.now kind number }
    ensures said { IfOk result (λ said. Ok said ≡ decode_number (lent_columns columns.now kind) kind number) }
{
    let lent = check_columns(columns)?;
    decode(lent, kind, number)
}

// What a number says as a short frame. C has a function for each kind. C is told of the wrong bit by its
// place alone; what is judged of a frame names it.
pub fn decode_short_with_columns(columns: &[u8], number: u64) -> Result<Judged, Refusal>
    ensures answer { decoded_outcome Short result ≡ decode_with_columns columns.now Short number }
    ensures said { IfOk result (λ said. Ok said ≡ decode_number (lent_columns columns.now Short) Short number) }
{
    decode_with_columns(columns, Kind::Short, number)
}

// What a number says as a long frame.
pub fn decode_long_with_columns(columns: &[u8], number: u64) -> Result<Judged, Refusal>
    ensures answer { decoded_outcome Long result ≡ decode_with_columns columns.now Long number }
    ensures said { IfOk result (λ said. Ok said ≡ decode_number (lent_columns columns.now Long) Long number) }
{
    decode_with_columns(columns, Kind::Long, number)
}

// What C is handed in place of a decoder's answer.
pub fn decoded_with_index(kind: Kind, decoded: Result<Judged, Refusal>) -> DecodedWithIndex
    ensures { result ≡ decoded_outcome kind decoded }
{
    DecodedWithIndex {
        answer: decoder_answer(kind, decoded),
        index: index_of(decoded),
    }
}

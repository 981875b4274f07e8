// Document 01, "Frames on channel B": the check bits of a word, over any table of columns.
//
// There is no state. A received word is two numbers, data and check number, and goes by value; a
// table of columns is only read, and is lent.
#![tactic(auto)]

ghost use Rattle.std.specs.Prelude.{◌≡◌, cond, ◌<◌, ◌^◌, eqb};
ghost use Rattle.std.specs.Int.Bits.{bit_xor};
ghost use Rattle.hamming.specs.Columns.{column_table};
ghost use Rattle.hamming.specs.Code as code;
ghost use Rattle.hamming.specs.Code.{in_use, check_number, first_equal, by_syndrome};

// A bit of a received word that the decoder finds wrong.
#[derive(Clone, Copy, Debug, PartialEq, Eq)]
pub enum WrongBit {
    Check(usize),
    Data(usize),
}

// What the decoder of a word answers: the data, and the bit that it found wrong, if any.
#[derive(Clone, Copy, Debug, PartialEq, Eq)]
pub struct Word {
    pub data: u32,
    pub wrong: Option<WrongBit>,
}

// The columns of data bits 0 to 31; a short frame uses the first eight.
const COLUMNS: [u8; 32] = [
    7, 11, 13, 14, 19, 21, 22, 25, 26, 28, 35, 37, 38, 41, 42, 44, 49, 50, 52, 56, 67, 69, 70, 73,
    74, 76, 81, 82, 84, 88, 97, 98,
];

// The table, for callers to lend: the eight of a short frame are `&table[..8]`.
pub fn column_table() -> &'static [u8; 32]
    ensures { result.now ≡ column_table }
{
    &COLUMNS
}

// The data have 32 bits, so columns beyond are not in use.
fn in_use(columns: &[u8]) -> &[u8]
    ensures { result.now ≡ in_use columns.now }
{
    if columns.len() <= 32 {
        columns
    } else {
        &columns[..32]
    }
}

// What a data bit adds to the check number. The column is read in any case, so that the loop below has
// no branch.
#[tactic(auto, using(laws::proofs::Rules::picks))]
fn column_if(bit: u32, column: u8) -> u8
    ensures { result ≡ cond (eqb bit 1) column 0 }
{
    if bit == 1 { column } else { 0 }
}

// The exclusive-or of the columns of the data bits that are 1.
#[tactic(auto, using(crate::proofs::Loops::check_turn, crate::proofs::Loops::check_end))]
pub fn check_number(columns: &[u8], data: u32) -> u8
    ensures { result ≡ check_number (in_use columns.now) «data» }
{
    let mut check = 0u8;
    let mut rest = data;
    for &column in in_use(columns) {
        check ^= column_if(rest % 2, column);
        rest /= 2;
    }
    check
}

// The received check number against that of the received data.
#[tactic(auto, unfolding(crate::specs::Code::syndrome))]
pub fn syndrome(columns: &[u8], data: u32, check: u8) -> u8
    ensures { result ≡ code.syndrome (in_use columns.now) «data» check }
{
    check ^ check_number(columns, data)
}

// The bit of the first column in use that equals the syndrome, or none. The customer's rule: a search
// loop that yields the position by `break`.
#[tactic(auto, using(crate::proofs::Loops::find_here, crate::proofs::Loops::find_on, crate::proofs::Loops::find_end))]
pub fn find_column(columns: &[u8], syndrome: u8) -> Option<usize>
    ensures { result ≡ first_equal (in_use columns.now) syndrome }
{
    let used = in_use(columns);
    let mut at = 0;
    loop {
        if used.len() <= at {
            break None;
        }
        if used[at] == syndrome {
            break Some(at);
        }
        at += 1;
    }
}

// The data with that bit flipped.
fn flip_bit(data: u32, at: usize) -> u32
    requires { at < 32 }
    ensures { result ≡ bit_xor «data» (2 ^ at) }
{
    data ^ (1u32 << at)
}

// The decoder of a word: what the syndrome says of the received data, in document 01's order; none
// where the word can't be corrected.
#[tactic(auto, using(laws::proofs::Rules::picks, laws::proofs::Powers::one_bit_trailing), unfolding(crate::specs::Code::by_syndrome))]
pub fn by_syndrome(columns: &[u8], data: u32, syndrome: u8) -> Option<Word>
    ensures { result ≡ by_syndrome (in_use columns.now) «data» syndrome }
{
    if syndrome == 0 {
        return Some(Word { data, wrong: None });
    }
    if syndrome.count_ones() == 1 {
        let bit = syndrome.trailing_zeros() as usize;
        return Some(Word {
            data,
            wrong: Some(WrongBit::Check(bit)),
        });
    }
    let at = find_column(columns, syndrome)?;
    Some(Word {
        data: flip_bit(data, at),
        wrong: Some(WrongBit::Data(at)),
    })
}

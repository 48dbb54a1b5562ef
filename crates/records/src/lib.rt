// What an object's data begins with (the Rust's `prologue` in src/streaming/records.rs), read bit by bit by shifts and masks.
#![tactic(auto)]

ghost use Rattle.std.specs.Prelude.{◌≡◌, ◌+◌, ◌*◌, ◌/◌, ◌^◌, ◌<◌, length};
ghost use Rattle.rules.specs.Prologue.{bit_at, prologue_of};
ghost use Rattle.records.specs.Bits.{taken_at};
ghost use Rattle.records.specs.Reader.{reader_at, skipped};
ghost use Rattle.records.specs.Fields.{type_width, type_of, gap_width};
ghost use Rattle.records.specs.Answer.{of_r2000, head_of};

// How the data begins, by release.
#[derive(Clone, Copy, PartialEq, Eq)]
pub enum RecordFormat {
    // R13 and R14: the type, then the handle.
    R14,
    // R2000: the type, a size in bits, then the handle.
    R2000,
}

// Whether it is R2000 says which.
impl From<bool> for RecordFormat {
    ghost from_gives = { λ r2000 format. of_r2000 format ≡ r2000 };

    fn from(r2000: bool) -> RecordFormat {
        if r2000 {
            return RecordFormat::R2000;
        }
        RecordFormat::R14
    }
}

impl RecordFormat {
    // How many bits are skipped between the type and the handle's count.
    #[tactic(auto, using(crate::proofs::Tests::choices), unfolding(crate::specs::Fields::gap_width))]
    fn gap_width(self) -> usize
        ensures { result ≡ gap_width (of_r2000 self) }
    {
        match self {
            RecordFormat::R14 => 4,
            RecordFormat::R2000 => 36,
        }
    }
}

// What an object's data begins with.
#[derive(Clone, Copy, PartialEq, Eq)]
pub struct Opening {
    pub type_code: u16,
    pub handle: u64,
}

// A reader of bits: the bytes that it was lent, and the place of the bit that comes next.
#[derive(Clone, Copy)]
pub struct BitReader<'a> {
    pub bytes: &'a [u8],
    pub at: usize,
}

// The bit at a place, the most significant bit of each byte first.
#[tactic(auto, using(crate::proofs::Tests::masks), unfolding(rules::specs::Prologue::bit_at))]
fn bit_at(bytes: &[u8], at: usize) -> u64
    requires { at / 8 < length bytes.now }
    ensures { result ≡ bit_at bytes.now at }
{
    (u64::from(bytes[at / 8]) >> (7 - at % 8)) & 1
}

// A number with one more bit at its end.
fn push(value: u64, bit: u64) -> u64
    requires { (value < 2 ^ 63) × (bit < 2) }
    ensures { result ≡ 2 * value + bit }
{
    (value << 1) | bit
}

// The n bits at a place: at most 64, and none behind the last place that a usize can tell.
#[tactic(auto, using(crate::proofs::Bits::taking), unfolding(rules::specs::Prologue::bits_at))]
pub fn take_at(bytes: &[u8], at: usize, n: usize) -> Option<u64>
    ensures { result ≡ taken_at bytes.now at n }
{
    if n > 64 {
        return None;
    }
    let end = at.checked_add(n)?;
    if bytes.len() < end.div_ceil(8) {
        return None;
    }
    let mut value = 0;
    for i in 0..n {
        value = push(value, bit_at(bytes, at + i));
    }
    Some(value)
}

impl<'a> BitReader<'a> {
    // A reader at the first bit.
    pub fn new(bytes: &'a [u8]) -> BitReader<'a>
        ensures { result ≡ reader_at bytes.entry 0 }
    {
        BitReader { bytes, at: 0 }
    }

    // The next n bits. The reader stays where it is.
    pub fn take(self, n: usize) -> Option<u64>
        ensures { result ≡ taken_at self.entry.bytes.now self.entry.at n }
    {
        take_at(self.bytes, self.at, n)
    }

    // The reader behind the next n bits, whether they are there or not.
    #[tactic(auto, using(crate::proofs::Bits::further_is))]
    pub fn skip(self, n: usize) -> BitReader<'a>
        ensures { result ≡ skipped self.entry n }
    {
        BitReader {
            bytes: self.bytes,
            at: self.at.saturating_add(n),
        }
    }
}

// How many bits the type has, by its code.
#[tactic(auto, using(crate::proofs::Tests::choices), unfolding(crate::specs::Fields::type_width))]
fn type_width(code: u64) -> usize
    ensures { result ≡ type_width code }
{
    match code {
        0 => 16,
        1 => 8,
        _ => 0,
    }
}

// The type, by its code and its bits: the low byte stands first where it has two.
#[tactic(auto, using(crate::proofs::Tests::choices, crate::proofs::Tests::masks), unfolding(crate::specs::Fields::type_of))]
fn type_of(code: u64, bits: u64) -> u16
    ensures { result ≡ type_of code bits }
{
    match code {
        0 => u16::from_le_bytes([((bits >> 8) & 255) as u8, (bits & 255) as u8]),
        1 => (bits & 255) as u16,
        2 => 0,
        _ => 256,
    }
}

// The type and the handle that an object's data begins with; none where the bits run out.
// A count above 8 is more than 64 bits of handle, which are never taken.
#[tactic(auto, using(crate::proofs::Places::going_on))]
pub fn prologue(head: &[u8], format: RecordFormat) -> Option<Opening>
    ensures { result ≡ head_of (prologue_of (of_r2000 format) head.now) }
{
    let start = BitReader::new(head);
    let code = start.take(2)?;
    let at_type = start.skip(2);
    let width = type_width(code);
    let bits = at_type.take(width)?;
    let at_count = at_type.skip(width + format.gap_width());
    let count = at_count.take(4)?;
    let handle = at_count.skip(4).take(8 * count as usize)?;
    let type_code = type_of(code, bits);
    Some(Opening { type_code, handle })
}

// A number for each text of the section that holds the names. Texts with other numbers are other texts, so that few are compared byte by
// byte, however many end at one zero byte.
ghost use Rattle.std.specs.Prelude.{◌≡◌, ◌==◌, ◌≤◌, ℕ, List, length, if◌then◌else◌, IfOk};
ghost use Rattle.elf_sections.specs.Names.{text_at};
ghost use Rattle.elf_sections.specs.inside.Sums.{mix, sum_of, AreMarks};

use dw_base::NoMemory;
use std::alloc::Global;
use std::marker::Model;

// How many bytes stand between two places at which the number of a text is kept.
const STRIDE: usize = 64;

// An odd number whose bits show no pattern.
const SEED: u64 = 0x9e37_79b9_7f4a_7c15;

// Mixes a byte into a number.
fn mix(factor: u64, sum: u64, byte: u8) -> u64
    ensures { result ≡ mix factor sum byte }
{
    let product = (sum ^ u64::from(byte)).wrapping_mul(factor);
    product ^ (product >> 32)
}

// The number of the text from a byte on, from that of the text behind it.
fn sum_before(factor: u64, byte: u8, rest: u64) -> u64
    ensures { result ≡ (if byte == 0 then 0 else mix factor rest byte) }
{
    if byte == 0 {
        0
    } else {
        mix(factor, rest, byte)
    }
}

// An odd factor that follows from all of the bytes, so that none is known before they are.
fn factor_for(bytes: &[u8]) -> u64 {
    let mut factor = SEED;
    for byte in bytes {
        factor = mix(SEED, factor, *byte);
    }
    factor | 1
}

// The number of the text from a place on, from that of the text from a later place on.
fn sum_from(bytes: &[u8], factor: u64, from: usize, to: usize, rest: u64) -> u64
    requires order { from ≤ to }
    requires inside { to ≤ length bytes.now }
    requires rest { rest ≡ sum_of factor (text_at bytes.now to) }
    ensures { result ≡ sum_of factor (text_at bytes.now from) }
{
    let mut sum = rest;
    let mut at = to;
    while at > from {
        at -= 1;
        sum = sum_before(factor, bytes[at], sum);
    }
    sum
}

// The numbers of the texts from the end of the bytes on and from each place a stride before the one before.
fn read_marks(alloc: Global, bytes: &[u8], factor: u64) -> Result<Vec<u64>, NoMemory>
    ensures { IfOk result (λ marks. AreMarks factor bytes.now marks.items) }
{
    let mut marks = Vec::new(alloc);
    marks.push(0)?;
    for k in 0..bytes.len() / STRIDE {
        let to = bytes.len() - STRIDE * k;
        marks.push(sum_from(bytes, factor, to - STRIDE, to, marks[k]))?;
    }
    Ok(marks)
}

/// Some bytes with the numbers of their texts. Contracts see the bytes, and the factor by which the numbers are made.
#[derive(Drop)]
pub struct TextSums<'a> {
    bytes: &'a [u8],
    factor: u64,
    marks: Vec<u64>,
}

impl<'a> Model for TextSums<'a> {
    ghost Value = { List ℕ × ℕ };

    ghost view = { λ s. (s.bytes.now, s.factor) };

    ghost invariant = { λ s. AreMarks s.factor s.bytes.now s.marks.items };
}

impl<'a> TextSums<'a> {
    /// Looks at all bytes, twice. NoMemory comes where memory is wanting: an eighth of the bytes.
    pub fn read(alloc: Global, bytes: &'a [u8]) -> Result<TextSums<'a>, NoMemory>
        ensures { IfOk result (λ sums. sums.0 ≡ bytes.entry.now) }
    {
        let factor = factor_for(bytes);
        let marks = read_marks(alloc, bytes, factor)?;
        Ok(TextSums {
            bytes,
            factor,
            marks,
        })
    }

    /// The number of the text from a place on. It follows from the bytes of the text, and from the factor.
    pub fn sum_at(&self, at: usize) -> u64
        ensures { result ≡ sum_of self.now.1 (text_at self.now.0 at) }
    {
        if at >= self.bytes.len() {
            return 0;
        }
        let k = (self.bytes.len() - at) / STRIDE;
        let to = self.bytes.len() - STRIDE * k;
        sum_from(self.bytes, self.factor, at, to, self.marks[k])
    }
}

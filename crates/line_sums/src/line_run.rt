// The bytes of line distances.
ghost use Rattle.std.specs.Prelude.{◌≡◌, ◌≤◌, ◌<◌, ◌+◌, ◌-◌, ◌*◌, ◌^◌, pos, neg_ℤ, ◌≤ℤ◌};
ghost use Rattle.leb_codec.specs.LineCosts.{advance_line_bytes};
ghost use Rattle.line_sums.specs.inside.Windows.{IsLineRun, IsLeastOfLen};

use leb_codec::len_s;

// How many bytes a line distance takes, and down to which distance all take as many.
#[derive(Clone, Copy, Debug)]
pub struct LineRun {
    pub bytes: u32,
    pub low: i64,
}

/// The bytes of advance_line, which is left out where its operand is 0.
pub fn line_bytes(operand: i64) -> u32
    requires low { neg_ℤ (pos (2 ^ 32)) ≤ℤ operand }
    requires high { operand ≤ℤ pos (2 ^ 32) }
    ensures bytes { result ≡ advance_line_bytes operand }
    ensures few { result ≤ 6 }
{
    if operand == 0 { 0 } else { 1 + len_s(operand) }
}

// How many numbers from 0 on have a signed LEB128 of at most this length.
fn numbers_within(len: u32) -> i64
    requires some { 1 ≤ len }
    requires few { len ≤ 9 }
    ensures { result ≡ pos (64 * 128 ^ (len - 1)) }
{
    1 << (7 * len - 1)
}

// The least number above 0 whose signed LEB128 has this length.
fn least_of_len(len: u32) -> i64
    requires some { 1 ≤ len }
    requires few { len ≤ 9 }
    ensures is { IsLeastOfLen len result }
    ensures few { result ≤ℤ pos (2 ^ 62) }
{
    if len == 1 { 1 } else { numbers_within(len - 1) }
}

/// The run of a line distance that may be lessened by a number up to `most`.
pub fn line_run(line: i64, most: u8) -> LineRun
    requires low { neg_ℤ (pos (2 ^ 33)) ≤ℤ line }
    requires high { line ≤ℤ pos (2 ^ 33) }
    ensures run { IsLineRun line most result }
    ensures below { result.low ≤ℤ line }
    ensures above { neg_ℤ (pos (2 ^ 34)) ≤ℤ result.low }
    ensures few { result.bytes ≤ 6 }
{
    let most = i64::from(most);
    if line < 0 {
        let len = len_s(line);
        return LineRun {
            bytes: 1 + len,
            low: -numbers_within(len),
        };
    }
    if line <= most {
        return LineRun { bytes: 0, low: 0 };
    }
    let len = len_s(line - most);
    LineRun {
        bytes: 1 + len,
        low: most + least_of_len(len),
    }
}

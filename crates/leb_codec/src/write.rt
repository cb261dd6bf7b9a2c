// Numbers written.
ghost use Rattle.std.specs.Prelude.{◌≡◌, ◌≤◌, ◌<◌, ◌-◌, ◌*◌, ◌++◌, ◌^◌, ◌↔◌, ℕ, OnOk, OnErr};
ghost use Rattle.spelled.specs.Spelled.{Appends};
ghost use Rattle.leb_codec.specs.Leb.{ShortestUnsigned, ShortestSigned, PaddedUnsigned, least_unsigned_len, least_signed_len};
ghost use Rattle.leb_codec.specs.Leb.{magnitude as magnitude_of};
ghost use Rattle.leb_codec.specs.Digits.{Extends};
ghost use Rattle.leb_codec.specs.inside.Digits.{digits_of, digit_of};

use dw_base::NoMemory;

/// The length of the shortest unsigned LEB128 bytes of a number (DWARF 5 section 7.6).
pub fn len_u(value: u64) -> u32
    ensures least { result ≡ least_unsigned_len value }
    ensures some { 1 ≤ result }
    ensures few { result ≤ 10 }
{
    // From the place of the highest set bit, without a loop: searches call this very often.
    (value | 1).ilog2() / 7 + 1
}

// How far a signed number is from 0, or from -1 where it is below 0.
fn magnitude(value: i64) -> u64
    ensures small { result < 2 ^ 63 }
    ensures far { result ≡ magnitude_of value }
{
    if value < 0 {
        (-1 - value) as u64
    } else {
        value as u64
    }
}

/// The length of the shortest signed LEB128 bytes of a number (DWARF 5 section 7.6).
pub fn len_s(value: i64) -> u32
    ensures least { result ≡ least_signed_len value }
    ensures some { 1 ≤ result }
    ensures few { result ≤ 10 }
{
    len_u(2 * magnitude(value))
}

// The lowest digit of seven bits, or what it lacks to 127.
fn digit(rest: u64, complemented: bool) -> u8
    ensures { result ≡ digit_of complemented rest }
{
    let low = (rest % 128) as u8;
    if complemented { 127 - low } else { low }
}

// Appends `size` digits, or a front of them.
fn push_digits(
    out: &mut Vec<u8>,
    digits: u64,
    size: u32,
    complemented: bool,
) -> Result<(), NoMemory>
    requires { 1 ≤ size }
    ensures ok { OnOk result (out.new.items ≡ out.old.items ++ digits_of complemented (size - 1) digits) }
    ensures err { OnErr result (Extends out.old.items out.new.items) }
{
    let mut rest = digits;
    for _ in 1..size {
        out.push(128 + digit(rest, complemented))?;
        rest /= 128;
    }
    out.push(digit(rest, complemented))?;
    Ok(())
}

// Appends `size` digits, or nothing where memory is wanting.
fn put_digits(out: &mut Vec<u8>, digits: u64, size: u32, complemented: bool) -> Result<(), NoMemory>
    requires { 1 ≤ size }
    ensures ok { OnOk result (out.new.items ≡ out.old.items ++ digits_of complemented (size - 1) digits) }
    ensures err { OnErr result (out.new.items ≡ out.old.items) }
{
    let start = out.len();
    match push_digits(out, digits, size, complemented) {
        Ok(()) => Ok(()),
        Err(error) => {
            out.truncate(start);
            Err(error)
        }
    }
}

/// Appends the shortest unsigned LEB128 bytes of a number (DWARF 5 section 7.6). An Err leaves `out` as it was.
pub fn put_u(out: &mut Vec<u8>, value: u64) -> Result<(), NoMemory>
    ensures ok { OnOk result (Appends ShortestUnsigned value out.old.items out.new.items) }
    ensures err { OnErr result (out.new.items ≡ out.old.items) }
{
    put_digits(out, value, len_u(value), false)
}

/// Appends the shortest signed LEB128 bytes of a number (DWARF 5 section 7.6). An Err leaves `out` as it was.
pub fn put_s(out: &mut Vec<u8>, value: i64) -> Result<(), NoMemory>
    ensures ok { OnOk result (Appends ShortestSigned value out.old.items out.new.items) }
    ensures err { OnErr result (out.new.items ≡ out.old.items) }
{
    put_digits(out, magnitude(value), len_s(value), value < 0)
}

/// Appends the unsigned LEB128 bytes of a number that are `size` bytes long (DWARF 5 section 7.6), which is at least
/// `len_u(value)`. An Err leaves `out` as it was.
pub fn put_padded(out: &mut Vec<u8>, value: u64, size: u32) -> Result<(), NoMemory>
    requires { least_unsigned_len value ≤ size }
    ensures ok { OnOk result (Appends (PaddedUnsigned size) value out.old.items out.new.items) }
    ensures err { OnErr result (out.new.items ≡ out.old.items) }
{
    put_digits(out, value, size, false)
}

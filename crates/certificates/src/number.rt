// A number of a record read.
ghost use Rattle.std.specs.Prelude.{◌≤◌, ◌<◌, ◌^◌, length, drop, MatchOption, IfSome};
ghost use Rattle.leb_codec.specs.Records.{Number, HasNone};
ghost use Rattle.certificates.specs.Reading.{IsRead};

use leb_codec::{ReadU, len_u, read_u};

/// The number that begins at a place, counted from 0, and the place after its last byte, or None exactly where no shortest
/// ULEB128 of a number of 64 bits stands there.
pub fn read_number(bytes: &[u8], at: usize) -> Option<ReadU>
    requires { at ≤ length bytes.now }
    ensures read { MatchOption result (HasNone Number (drop at bytes.now)) (λ r. IsRead Number bytes.now at r.value r.end) }
    ensures fits { IfSome result (λ r. r.value < 2 ^ 64) }
{
    match read_u(bytes, at) {
        Ok(read) if read.end - at == len_u(read.value) as usize => Some(read),
        Ok(_) => None,
        Err(_fault) => None,
    }
}

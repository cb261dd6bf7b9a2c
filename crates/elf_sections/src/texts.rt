// Texts that end at a zero byte, where many may end at the same one.
ghost use Rattle.std.specs.Prelude.{◌≡◌, ◌≢◌, ◌==◌, ◌+◌, ◌≤◌, ◌<◌, ℕ, length, slice_index, position, IfOk, IfSome, MatchOption};
ghost use Rattle.std.specs.List.{Contains};
ghost use Rattle.elf_sections.specs.Names.{text_at};
ghost use Rattle.elf_sections.specs.inside.Names.{IsTextEnd, AreTextEnds};

use dw_base::NoMemory;
use std::collections::BTreeSet;

// How many bytes stand before the first zero byte, where there is one.
fn first_zero(bytes: &[u8]) -> Option<usize>
    ensures { result ≡ position (λ b. b == 0) bytes.now }
{
    bytes.iter().position(|byte| *byte == 0)
}

// The first zero byte from a place on, but before `stop`.
fn find_zero(bytes: &[u8], at: usize, stop: usize) -> Option<usize>
    requires order { at ≤ stop }
    requires inside { stop ≤ length bytes.now }
    ensures { MatchOption result ((k : ℕ) → at ≤ k → k < stop → slice_index bytes.now k ≢ 0) (λ end. IsTextEnd bytes.now at end) }
{
    match first_zero(&bytes[at..stop]) {
        Some(len) => Some(at + len),
        None => None,
    }
}

// The nearest of these zero bytes from a place on, and the least place from which on it is known to be the first.
fn next_known(ends: &BTreeSet<(usize, usize)>, at: usize) -> Option<(usize, usize)>
    ensures known { IfSome result (λ pair. Contains ends.now.keys pair) }
    ensures after { IfSome result (λ pair. at ≤ pair.0) }
{
    ends.range((at, 0)..).next().copied()
}

// The first zero byte from a place on. Only bytes before what is known are looked at.
fn find_end(bytes: &[u8], known: Option<(usize, usize)>, at: usize) -> Option<usize>
    requires inside { at ≤ length bytes.now }
    requires known { IfSome known (λ pair. (at ≤ pair.0) × IsTextEnd bytes.now pair.1 pair.0) }
    ensures { MatchOption result ((k : ℕ) → at ≤ k → k < length bytes.now → slice_index bytes.now k ≢ 0) (λ end. IsTextEnd bytes.now at end) }
{
    match known {
        Some((end, from)) if from <= at => Some(end),
        Some((end, from)) => find_zero(bytes, at, from).or(Some(end)),
        None => find_zero(bytes, at, bytes.len()),
    }
}

/// The length of the text from a place on up to its zero byte, where that is there. `ends` keeps the zero bytes that were
/// found, each after a place from which on it is the first, so that bytes of texts that end together are looked at once.
/// NoMemory comes where memory is wanting.
pub fn text_len(
    bytes: &[u8],
    ends: &mut BTreeSet<(usize, usize)>,
    at: usize,
) -> Result<Option<usize>, NoMemory>
    requires { AreTextEnds bytes.now ends.old.keys }
    ensures len { IfOk result (λ len. MatchOption len (length bytes.now ≤ at + length (text_at bytes.now at)) (λ n. (n ≡ length (text_at bytes.now at)) × (at + n < length bytes.now))) }
    ensures ends { AreTextEnds bytes.now ends.new.keys }
{
    if at > bytes.len() {
        return Ok(None);
    }
    let known = next_known(ends, at);
    let Some(end) = find_end(bytes, known, at) else {
        return Ok(None);
    };
    ends.insert((end, at))?;
    Ok(Some(end - at))
}

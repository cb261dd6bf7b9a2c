// The least form among those that admit all values.
ghost use Rattle.std.specs.Prelude.{◌≡◌, ◌≤◌, ◌<◌, ◌+◌, ◌^◌, ◌↔◌, ℕ, List, length, IsTrue, true};
ghost use Rattle.form_codec.specs.Columns.{ComesFirst};
ghost use Rattle.column_forms.specs.Tallies.{AreBounded, candidate_at};
ghost use Rattle.column_forms.specs.inside.Choices.{AdmitsUnsigned, IsPassedOver, IsBest, IsBetter, bytes_of};

use crate::tally::Candidate;
use dw_base::Classes;
use dw_base::constants::{
    DW_AT_CONST_VALUE, DW_AT_HIGH_PC, DW_FORM_ADDRX1, DW_FORM_ADDRX4, DW_FORM_IMPLICIT_CONST,
    DW_FORM_SDATA, DW_FORM_UDATA,
};
use leb_codec::len_s;

/// A form, and the bytes of a column in it.
#[derive(Clone, Copy, Debug, PartialEq, Eq)]
pub struct Choice {
    /// The code of the form.
    pub form: u64,
    /// The bytes in the entries and of the constant in the declaration.
    pub bytes: u128,
}

// Whether a form comes before another one that takes as few bytes, or is it.
fn comes_first(input: u64, form: u64, other: u64) -> bool
    ensures { IsTrue result ↔ ComesFirst input form other }
{
    form == input || (other != input && form <= other)
}

// The form of a candidate, with the bytes of the column in it.
fn choice_of(candidate: Candidate, constant: i64) -> Choice
    requires { candidate.size + 2 ^ 64 ≤ 2 ^ 128 }
    ensures form { result.form ≡ candidate.form }
    ensures bytes { result.bytes ≡ bytes_of constant candidate }
{
    let constant_bytes = if candidate.form == DW_FORM_IMPLICIT_CONST {
        u128::from(len_s(constant))
    } else {
        0
    };
    Choice {
        form: candidate.form,
        bytes: candidate.size + constant_bytes,
    }
}

// The better one of a choice, if there is one, and of another.
fn better(best: Option<Choice>, other: Choice, input: u64) -> Choice
    ensures { IsBetter input best other result }
{
    match best {
        Some(choice) => {
            if other.bytes < choice.bytes
                || (other.bytes == choice.bytes && comes_first(input, other.form, choice.form))
            {
                other
            } else {
                choice
            }
        }
        None => other,
    }
}

// Whether DW_FORM_udata admits all values.
fn admits_unsigned(candidates: &[Candidate]) -> bool
    ensures { IsTrue result ↔ AdmitsUnsigned candidates.now }
{
    for candidate in candidates {
        if candidate.form == DW_FORM_UDATA && candidate.admits {
            return true;
        }
    }
    false
}

// Whether the classes leave out the form with a code under a name. `unsigned` tells whether DW_FORM_udata admits all values: then classes
// without signed numbers leave out DW_FORM_sdata.
fn is_passed_over(classes: Classes, name: u64, unsigned: bool, code: u64) -> bool
    ensures { (candidates : List Candidate) → (IsTrue unsigned ↔ AdmitsUnsigned candidates) → IsTrue result ↔ IsPassedOver classes name candidates code }
{
    match code {
        DW_FORM_ADDRX1..=DW_FORM_ADDRX4 => !classes.indexes,
        DW_FORM_IMPLICIT_CONST => !classes.implicit
            && (name == DW_AT_HIGH_PC || name == DW_AT_CONST_VALUE),
        DW_FORM_SDATA => !classes.signed && unsigned,
        _ => false,
    }
}

/// Of the candidates that admit all values, and that the classes don't leave out under this name, the one that takes the fewest bytes: those in the
/// entries and, for DW_FORM_implicit_const, those of the constant in the declaration. Among equals it is the one with the form `input`, or else the
/// one with the lowest code. None: there is no such candidate.
pub fn best_of(
    candidates: &[Candidate],
    classes: Classes,
    name: u64,
    constant: i64,
    input: u64,
) -> Option<Choice>
    requires { (k : ℕ) → k < length candidates.now → (candidate_at candidates.now k).size + 2 ^ 64 ≤ 2 ^ 128 }
    ensures { IsBest classes name candidates.now constant input (length candidates.now) result }
{
    let unsigned = admits_unsigned(candidates);
    let mut best = None;
    for i in 0..candidates.len() {
        if candidates[i].admits && !is_passed_over(classes, name, unsigned, candidates[i].form) {
            best = Some(better(best, choice_of(candidates[i], constant), input));
        }
    }
    best
}

// What the values of a column take in each form.
ghost use Rattle.std.specs.Prelude.{◌≡◌, ◌≤◌, ◌<◌, ◌+◌, ◌*◌, ◌^◌, ◌++◌, ◌∷◌, ◌↔◌, [], ℕ, List, length, Contains, IsTrue, IfOk, IfSome, OnOk, MatchOption};
ghost use Rattle.form_codec.specs.declared.value.Value.{Value as AValue};
ghost use Rattle.form_codec.specs.Forms.{Meaning};
ghost use Rattle.form_codec.specs.Values.{meant_in, IsValueIn};
ghost use Rattle.form_codec.specs.Columns.{AreSpelled, IsChoice, IsLeastForm};
ghost use Rattle.column_forms.specs.Columns.{IsChosen};
ghost use Rattle.form_codec.specs.Written.{HasConstant};
ghost use Rattle.column_forms.specs.Tallies.{meanings_in, IsTally, IsHere};
ghost use Rattle.column_forms.specs.inside.Tallies.{CanSpell, HasCodesFor, IsNext, IsFirst, AreFound, AreAdded, HaveRoom, HaveConstants};

use crate::choice::best_of;
use abbrev_tables::Spec;
use dw_base::constants::{
    DW_FORM_ADDR, DW_FORM_ADDRX, DW_FORM_ADDRX1, DW_FORM_ADDRX2, DW_FORM_ADDRX3, DW_FORM_ADDRX4,
    DW_FORM_BLOCK, DW_FORM_BLOCK1, DW_FORM_BLOCK2, DW_FORM_BLOCK4, DW_FORM_DATA1, DW_FORM_DATA2,
    DW_FORM_DATA4, DW_FORM_DATA8, DW_FORM_DATA16, DW_FORM_EXPRLOC, DW_FORM_FLAG,
    DW_FORM_FLAG_PRESENT, DW_FORM_IMPLICIT_CONST, DW_FORM_LINE_STRP, DW_FORM_LOCLISTX,
    DW_FORM_REF_ADDR, DW_FORM_REF_SIG8, DW_FORM_REF_SUP4, DW_FORM_REF_SUP8, DW_FORM_REF_UDATA,
    DW_FORM_RNGLISTX, DW_FORM_SDATA, DW_FORM_SEC_OFFSET, DW_FORM_STRING, DW_FORM_STRP,
    DW_FORM_STRP_SUP, DW_FORM_STRX, DW_FORM_STRX1, DW_FORM_STRX2, DW_FORM_STRX3, DW_FORM_STRX4,
    DW_FORM_UDATA,
};
use dw_base::{Classes, NoMemory};
use form_codec::{Form, Shape, Value, constant_of, size_in, some_form};
use std::alloc::Global;
use std::marker::Model;

/// A form that admits the first value of a column.
#[derive(Clone, Copy)]
pub struct Candidate {
    /// The code of the form.
    pub form: u64,
    /// The shape of its bytes, which for DW_FORM_implicit_const has the constant.
    pub shape: Shape,
    /// How many bytes the values take in the entries.
    pub size: u128,
    /// Whether it admits all values so far.
    pub admits: bool,
}

// Counts one more value in a form.
fn count(candidate: &mut Candidate, value: &Value)
    requires room { candidate.old.size + 2 ^ 64 < 2 ^ 128 }
    requires shape { HasConstant candidate.old.shape }
    ensures { (name : ℕ) → IsNext name value.now candidate.old candidate.new }
{
    // A form that doesn't admit an earlier value is never chosen, so that its bytes don't matter.
    if !candidate.admits {
        return;
    }
    match size_in(candidate.shape, value) {
        Some(size) => candidate.size += u128::from(size),
        None => candidate.admits = false,
    }
}

/// The bytes that the values of a column take in each form that can be chosen, summed as the values come. Contracts see
/// the forms with their sums.
#[derive(Drop)]
pub struct Tally {
    name: u64,
    candidates: Vec<Candidate>,
    constant: i64,
    count: u64,
}

impl Model for Tally {
    ghost use Rattle.column_forms.specs.Tallies.{Tallying, IsHeld};

    ghost Value = { Tallying };

    ghost view = { λ t. record { name = t.name; candidates = t.candidates.items; constant = t.constant; count = t.count } };

    ghost invariant = { λ t. IsHeld t.name t.candidates.items t.constant t.count };
}

// The form with a code, where it can be chosen and spells a first value of an attribute with a name.
fn candidate_for(name: u64, code: u64, constant: i64, value: &Value) -> Option<Candidate>
    ensures { MatchOption result ((section : List ℕ) → IsHere section value.now → CanSpell name code constant (meant_in section value.now) → ⊥) (IsFirst name code constant value.now) }
{
    let Some(form) = Form::from_code(code) else {
        return None;
    };
    if !form.is_written() {
        return None;
    }
    let shape = form.shape(name, constant);
    let Some(size) = size_in(shape, value) else {
        return None;
    };
    Some(Candidate {
        form: code,
        shape,
        size: u128::from(size),
        admits: true,
    })
}

// Appends the form with a code, where it spells a value.
fn push_candidate(
    candidates: &mut Vec<Candidate>,
    name: u64,
    code: u64,
    constant: i64,
    value: &Value,
) -> Result<(), NoMemory>
    ensures { OnOk result ((codes : List ℕ) → AreFound name constant value.now (Contains codes) candidates.old.items → AreFound name constant value.now (Contains (codes ++ code ∷ [])) candidates.new.items) }
{
    if let Some(candidate) = candidate_for(name, code, constant, value) {
        candidates.push(candidate)?;
    }
    Ok(())
}

// The codes of the forms that can be chosen for some values of the kind of this one, by their classes (DWARF 5 section 7.5.5).
fn codes_for(value: &Value) -> &'static [u64]
    ensures codes { HasCodesFor value.now result.now }
    ensures few { length result.now ≤ 7 }
{
    match *value {
        Value::Addr(_) => &[DW_FORM_ADDR],
        Value::AddrIndex(_) => &[
            DW_FORM_ADDRX,
            DW_FORM_ADDRX1,
            DW_FORM_ADDRX2,
            DW_FORM_ADDRX3,
            DW_FORM_ADDRX4,
        ],
        Value::Int(_) | Value::Fixed(..) => &[
            DW_FORM_DATA2,
            DW_FORM_DATA4,
            DW_FORM_DATA8,
            DW_FORM_DATA1,
            DW_FORM_SDATA,
            DW_FORM_UDATA,
            DW_FORM_IMPLICIT_CONST,
        ],
        Value::Wide16(_) => &[DW_FORM_DATA16],
        Value::Block(_) => &[
            DW_FORM_BLOCK2,
            DW_FORM_BLOCK4,
            DW_FORM_BLOCK,
            DW_FORM_BLOCK1,
        ],
        Value::Expr(_) => &[DW_FORM_EXPRLOC],
        Value::Flag(_) => &[DW_FORM_FLAG, DW_FORM_FLAG_PRESENT],
        Value::LocalRef(_) => &[DW_FORM_REF_UDATA],
        Value::SectionRef(_) => &[DW_FORM_REF_ADDR],
        Value::Signature(_) => &[DW_FORM_REF_SIG8],
        Value::SupRef(..) => &[DW_FORM_REF_SUP4, DW_FORM_REF_SUP8],
        Value::Text(_) => &[DW_FORM_STRING],
        Value::StrOffset(_) => &[DW_FORM_STRP],
        Value::LineStrOffset(_) => &[DW_FORM_LINE_STRP],
        Value::SupStr(_) => &[DW_FORM_STRP_SUP],
        Value::StrIndex(_) => &[
            DW_FORM_STRX,
            DW_FORM_STRX1,
            DW_FORM_STRX2,
            DW_FORM_STRX3,
            DW_FORM_STRX4,
        ],
        Value::Offset(_) => &[DW_FORM_SEC_OFFSET],
        Value::LocIndex(_) => &[DW_FORM_LOCLISTX],
        Value::RangeIndex(_) => &[DW_FORM_RNGLISTX],
    }
}

// The forms that can be chosen and spell a first value, each with its bytes.
fn candidates_for(
    alloc: Global,
    name: u64,
    constant: i64,
    value: &Value,
) -> Result<Vec<Candidate>, NoMemory>
    ensures { IfOk result (λ candidates. AreFound name constant value.now IsChoice candidates.items) }
{
    let mut candidates = Vec::new(alloc);
    let codes = codes_for(value);
    for code in codes {
        push_candidate(&mut candidates, name, *code, constant, value)?;
    }
    Ok(candidates)
}

// Counts one more value in each form.
fn add_to(candidates: &mut Vec<Candidate>, value: &Value)
    requires room { HaveRoom candidates.old.items }
    requires shapes { HaveConstants candidates.old.items }
    ensures { (name : ℕ) → AreAdded name value.now candidates.old.items (length candidates.old.items) candidates.new.items }
{
    for i in 0..candidates.len() {
        count(&mut candidates[i], value);
    }
}

impl Tally {
    /// The sums of a column of the attribute with this name, whose first value this is. The only error is want of memory.
    pub fn new(alloc: Global, name: u64, value: &Value) -> Result<Tally, NoMemory>
        ensures name { IfOk result (λ t. t.name ≡ name) }
        ensures count { IfOk result (λ t. t.count ≡ 1) }
        ensures tally { IfOk result (λ t. (section : List ℕ) → IsHere section value.now → IsTally section (value.now ∷ []) t) }
    {
        let constant = constant_of(value);
        let candidates = candidates_for(alloc, name, constant, value)?;
        Ok(Tally {
            name,
            candidates,
            constant,
            count: 1,
        })
    }

    /// Counts the next value of the column.
    pub fn add(&mut self, value: &Value)
        requires { self.old.count < 2 ^ 63 }
        ensures name { self.new.name ≡ self.old.name }
        ensures count { self.new.count ≡ self.old.count + 1 }
        ensures tally { (section : List ℕ) (values : List AValue) → IsHere section value.now → IsTally section values self.old → IsTally section (values ++ value.now ∷ []) self.new }
    {
        add_to(&mut self.candidates, value);
        self.count += 1;
    }

    /// The column in the form of the classes that takes the fewest bytes: those of the values in the entries and, for
    /// DW_FORM_implicit_const, those of the constant in the declaration. Among equals it keeps its own form, or else has the
    /// one with the lowest code. References within a unit get DW_FORM_ref_udata, since ref1, ref2, ref4 and ref8 are never chosen.
    /// `column` is the one whose values were counted, each in its form.
    pub fn best(&self, classes: Classes, column: Spec) -> Spec
        ensures { (section : List ℕ) (values : List AValue) → self.now.name ≡ column.name → IsTally section values self.now → AreSpelled column.name column.form column.constant (meanings_in section values) → IsChosen classes column (meanings_in section values) result }
    {
        match best_of(
            &self.candidates,
            classes,
            self.name,
            self.constant,
            column.form,
        ) {
            Some(choice) => Spec {
                name: column.name,
                form: choice.form,
                constant: if choice.form == DW_FORM_IMPLICIT_CONST {
                    self.constant
                } else {
                    0
                },
            },
            None => {
                // Where the column's form spells the values, the classes have a form for them, so that there is a choice.
                some_form();
                column
            }
        }
    }

    /// Whether a column has a form of the classes that takes the fewest bytes, counted as `best` counts them. `column` is the one whose values were
    /// counted, each in its form, and so one of DW_FORM_implicit_const has the one constant that they have. One of DW_FORM_ref1, ref2,
    /// ref4 or ref8 isn't in a least form, since these are never chosen.
    pub fn is_least(&self, classes: Classes, column: Spec) -> bool
        ensures { (section : List ℕ) (values : List AValue) → self.now.name ≡ column.name → IsTally section values self.now → AreSpelled column.name column.form column.constant (meanings_in section values) → IsTrue result ↔ IsLeastForm classes column.name (meanings_in section values) column.form column.constant }
    {
        // Among the least forms the best one is the column's own, if that is one of them.
        self.best(classes, column).form == column.form
    }
}

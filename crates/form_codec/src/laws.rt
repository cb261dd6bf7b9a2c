// Laws of the definitions.
ghost use Rattle.std.specs.Prelude.{◌≡◌, ◌≢◌, ◌≤◌, ◌↔◌, ◌++◌, ℕ, ℤ, List, [], FitsSigned};
ghost use Rattle.std.specs.Int.{w64};
ghost use Rattle.dw_base.specs.declared.fault.Kind.{Kind as AnyKind};
ghost use Rattle.spelled.specs.Spelled.{HasUniqueFronts};
ghost use Rattle.form_codec.specs.Forms.{Meaning, SpellsValue, IsKnown};
ghost use Rattle.form_codec.specs.Forms.Meaning.{Whole};
ghost use Rattle.form_codec.specs.Faults.{FaultValue};
ghost use Rattle.form_codec.specs.Columns.{ClassesHaveMembers};

/// A law: the bytes of a value end by themselves, so that they spell one value, and none begins another.
pub fn values_end()
    ensures { (name code : ℕ) (constant : ℤ) → HasUniqueFronts (SpellsValue name code constant) }
{}

/// A law: bytes that begin with a value have no fault. So a value is refused only where no front of the bytes spells one.
pub fn values_whole()
    ensures { (name code : ℕ) (constant : ℤ) (kind : AnyKind) (meaning : Meaning) (a x : List ℕ) → SpellsValue name code constant meaning a → FaultValue name code constant kind (a ++ x) → ⊥ }
{}

/// Laws of form codes and of the constant in a declaration: codes are from 1 to 44; only DW_FORM_implicit_const, whose code
/// is 33, takes the constant, which is its value.
pub fn constants()
    ensures codes { (code : ℕ) → IsKnown code → (1 ≤ code) × (code ≤ 44) }
    ensures others { (name code : ℕ) (c d : ℤ) (meaning : Meaning) (bytes : List ℕ) → code ≢ 33 → SpellsValue name code c meaning bytes → SpellsValue name code d meaning bytes }
    ensures implicit { (name : ℕ) (c : ℤ) (meaning : Meaning) (bytes : List ℕ) → SpellsValue name 33 c meaning bytes → (bytes ≡ []) × FitsSigned w64 c × (meaning ≡ Whole c) }
    ensures spells { (name : ℕ) (c : ℤ) → FitsSigned w64 c → SpellsValue name 33 c (Whole c) [] }
{}

/// A law: whatever members classes have, a column whose values some form spells has a form in them.
pub fn some_form()
    ensures { ClassesHaveMembers }
{}

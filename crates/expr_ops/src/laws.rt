// Laws of the definitions.
ghost use Rattle.std.specs.Prelude.{◌≡◌, ◌≢◌, ◌<◌, ◌∷◌, ◌++◌, ◌^◌, ◌⊎◌, ◌↔◌, ℕ, List, [], ◌≤◌, length, take, slice_index_or, pos, Option, Some, IsTrue};
ghost use Rattle.spelled.specs.Spelled.{AreBytes, Joined, HasUniqueFronts, NeverBoth};
ghost use Rattle.dw_base.specs.declared.fault.Kind.{Kind as AnyKind};
ghost use Rattle.dw_base.specs.declared.fault.Reach.{Reach as AnyReach};
ghost use Rattle.dw_base.specs.declared.fault.Reach.TheVariants.{Narrow, Wide};
ghost use Rattle.expr_ops.specs.declared.table.Operands.{Operands as AnyOperands};
ghost use Rattle.expr_ops.specs.Table.{operands_of as known_operands};
ghost use Rattle.expr_ops.specs.Puts.{PutsOperands, PutsCall, PutsNumber, call_size, call_code};
ghost use Rattle.expr_ops.specs.declared.op.Op.{Op as AnyOp};
ghost use Rattle.expr_ops.specs.Drafts.{has_reference, PutsDraft, IsPut, sizes_in, starts_from};
ghost use Rattle.expr_ops.specs.declared.names.Named.TheVariants.{Nothing};
ghost use Rattle.expr_ops.specs.Names.{named_by, IsReferencePlace};
ghost use Rattle.expr_ops.specs.Fits.{FitsOperands, head_of};
ghost use Rattle.expr_ops.specs.Heads.{SpellsHead};
ghost use Rattle.expr_ops.specs.HeadFaults.{FaultHead};
ghost use Rattle.expr_ops.specs.Expressions.{Operation, IsExpression};
ghost use Rattle.expr_ops.specs.Ops.{all_meant, Chain};
ghost use Rattle.expr_ops.specs.ExpressionFaults.{FaultExpression};

/// A law: an opcode and its operands end by themselves, so that they spell one operation, and none begins another.
pub fn operations_end()
    ensures { HasUniqueFronts SpellsHead }
{}

/// A law: bytes that begin with an opcode and its operands have no fault there.
pub fn operations_whole()
    ensures { NeverBoth SpellsHead FaultHead }
{}

/// A law: the bytes of an expression have one reading.
pub fn one_reading()
    ensures { (reach : AnyReach) (o p : List Operation) (bytes : List ℕ) → IsExpression reach o bytes → IsExpression reach p bytes → o ≡ p }
{}

/// A law: two lists of operations that are those of an expression, each at its place, are the same.
pub fn one_list()
    ensures { (reach : AnyReach) (ops others : List AnyOp) (bytes : List ℕ) → IsExpression reach (all_meant bytes ops) bytes → IsExpression reach (all_meant bytes others) bytes → Chain bytes 0 ops (length bytes) → Chain bytes 0 others (length bytes) → ops ≡ others }
{}

/// A law: bytes that are an expression have no fault. So bytes are refused only where they are none.
pub fn never_both()
    ensures { (reach : AnyReach) (o : List Operation) (kind : AnyKind) (at : ℕ) (bytes : List ℕ) → IsExpression reach o bytes → FaultExpression reach kind at bytes → ⊥ }
{}

/// A law: bytes are an expression or have a fault. So bytes that are none are refused.
pub fn expression_or_fault()
    ensures { (reach : AnyReach) (bytes : List ℕ) → AreBytes bytes → ((o : List Operation) × IsExpression reach o bytes) ⊎ ((kind : AnyKind) × (at : ℕ) × FaultExpression reach kind at bytes) }
{}

/// A law: an expression within the narrow limits is one within the wide ones, with the same operations.
pub fn narrow_is_wide()
    ensures { (o : List Operation) (bytes : List ℕ) → IsExpression Narrow o bytes → IsExpression Wide o bytes }
{}

/// A law: what is written of an operation whose numbers fit spells its opcode with these operands; of an entry_value
/// together with the bytes that it holds.
pub fn operations_written()
    ensures other { (kinds : AnyOperands) (slot : Option ℕ) (o : Operation) (tail : List ℕ) → o.code < 256 → known_operands o.code ≡ Some kinds → FitsOperands kinds o → PutsOperands kinds slot o tail → SpellsHead (head_of o.code kinds o) (o.code ∷ tail) }
    ensures call { (slot : Option ℕ) (n : ℕ) (bytes : List ℕ) → n < 256 ^ call_size slot → PutsCall slot n bytes → SpellsHead (record { code = call_code slot; a = n; s = pos 0; block = [] }) bytes }
    ensures entry { (slot : Option ℕ) (n : ℕ) (tail body : List ℕ) → length body ≡ n → n < 2 ^ 64 → AreBytes body → PutsNumber slot n tail → SpellsHead (record { code = 163; a = 0; s = pos 0; block = body }) (163 ∷ (tail ++ body)) }
{}

/// A law: the places from which lengths and distances follow are those of the bytes that are written.
pub fn places_written()
    ensures { (refs sizes bytes : List ℕ) (ops : List AnyOp) (made : List ℕ) (p : IsPut refs sizes bytes ops made) (k : ℕ) (own : List ℕ) → k ≤ length p.aims → Joined (PutsDraft bytes) (take k p.aims) own → length own ≡ slice_index_or (starts_from 0 (sizes_in bytes p.drafts)) k 0 }
{}

/// A law: the operations that have a reference are those that name something.
pub fn references_named()
    ensures { (code : ℕ) → IsTrue (has_reference code) ↔ (named_by code ≢ Nothing) }
{}

/// A law: the reference of an operation begins at one place.
pub fn one_reference_place()
    ensures { (bytes : List ℕ) (code at place other : ℕ) → IsReferencePlace bytes code at place → IsReferencePlace bytes code at other → place ≡ other }
{}

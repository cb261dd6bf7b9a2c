// Laws of operations that are held, each at its place.
ghost use Rattle.std.specs.Prelude.{◌≡◌, ◌≤◌, ◌<◌, ℕ, List, length, true};
ghost use Rattle.dw_base.specs.declared.fault.Reach.{Reach as AnyReach};
ghost use Rattle.expr_ops.specs.declared.op.Op.{Op as AnyOp};
ghost use Rattle.expr_ops.specs.Expressions.{Operation, IsExpression};
ghost use Rattle.expr_ops.specs.Ops.{all_meant, Chain};
ghost use Rattle.expr_ops.specs.Drafts.{has_reference, op_at};
ghost use Rattle.expr_ops.specs.Names.{IsReferencePlace};

/// A law: the operations of an expression can be held, each at its place.
pub fn operations_have_places()
    ensures { (reach : AnyReach) (operations : List Operation) (bytes : List ℕ) → IsExpression reach operations bytes → (ops : List AnyOp) × (all_meant bytes ops ≡ operations) × Chain bytes 0 ops (length bytes) }
{}

/// A law: where operations are held, each at its place, the reference of each that has one begins at one place, before the
/// end of the bytes.
pub fn references_inside()
    ensures { (ops : List AnyOp) (bytes : List ℕ) → Chain bytes 0 ops (length bytes) → (k : ℕ) → k < length ops → has_reference (op_at ops k).code ≡ true → (place : ℕ) × IsReferencePlace bytes (op_at ops k).code (op_at ops k).at place × (place < length bytes) × ((other : ℕ) → IsReferencePlace bytes (op_at ops k).code (op_at ops k).at other → other ≡ place) }
{}

/// A law: an expression has no more operations than bytes.
pub fn few_operations()
    ensures { (reach : AnyReach) (operations : List Operation) (bytes : List ℕ) → IsExpression reach operations bytes → length operations ≤ length bytes }
{}

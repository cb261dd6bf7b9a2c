// Values, as they are held.
ghost use Rattle.std.specs.Prelude.{◌≡◌, ◌≢◌, ◌≤◌, ◌<◌, ◌++◌, ◌∷◌, ◌↔◌, [], List, length, IfSome, IsTrue, MatchOption, OnOk, OnErr};
ghost use Rattle.std.specs.Iterator.{YieldsFirst, item_count};
ghost use Rattle.form_codec.specs.declared.value.Value.{Value as AnyValue};
ghost use Rattle.entry_arena.specs.declared.values.Kind.TheVariants.{Other as OtherKind};
ghost use Rattle.entry_arena.specs.Arena.{value_at};
ghost use Rattle.entry_arena.specs.inside.Values.{value_held};

use dw_base::NoMemory;
use form_codec::{Value, Whole};
use std::alloc::Global;
use std::marker::Model;

// What a value is, beside its number of 32 bits.
#[derive(Clone, Copy, Debug, PartialEq, Eq)]
enum Kind {
    Addr,
    AddrIndex,
    Int,
    FixedOne,
    FixedTwo,
    Clear,
    Set,
    LocalRef,
    SectionRef,
    StrOffset,
    LineStrOffset,
    StrIndex,
    Offset,
    LocIndex,
    RangeIndex,
    // The number is that of a value that is held whole.
    Other,
}

// All values of a file are held at once.
const _: () = prove!(size_of::<Kind>() == 1);

/// The values of the attributes of a unit's entries (DWARF 5 section 7.5.5), in preorder and in each entry in the order of its
/// columns. One whose number fits 32 bits takes 5 bytes, and another, such as an expression or a text, 29. So none can be lent as it
/// is held: they are given by their numbers, which count from 0, or one after the other. Contracts see them as a list.
#[derive(Drop)]
pub struct Values {
    kinds: Vec<Kind>,
    numbers: Vec<u32>,
    others: Vec<Value>,
}

impl Model for Values {
    ghost use Rattle.std.specs.Prelude.{List};
    ghost use Rattle.form_codec.specs.declared.value.Value.{Value as AnyValue};
    ghost use Rattle.entry_arena.specs.inside.Values.{values_held, AreHeldWell};

    ghost Value = { List AnyValue };

    ghost view = { λ v. values_held v.kinds.items v.numbers.items v.others.items };

    ghost invariant = { λ v. AreHeldWell v.kinds.items v.numbers.items v.others.items };
}

// The number of a value in 32 bits, where it has one that fits, and what it is beside.
#[tactic(auto, unfolding(crate::specs::inside::Values::value_held))]
fn narrowed(value: &Value) -> Option<(Kind, u32)>
    ensures held { IfSome result (λ n. (others : List AnyValue) → value_held others n.0 n.1 ≡ value.now) }
    ensures narrow { IfSome result (λ n. n.0 ≢ OtherKind) }
{
    let (kind, number) = match *value {
        Value::Addr(number) => (Kind::Addr, number),
        Value::AddrIndex(number) => (Kind::AddrIndex, number),
        Value::Int(number) => (Kind::Int, u64::try_from(number.get()).ok()?),
        Value::Fixed(1, bits) => (Kind::FixedOne, bits),
        Value::Fixed(2, bits) => (Kind::FixedTwo, bits),
        Value::Flag(false) => (Kind::Clear, 0),
        Value::Flag(true) => (Kind::Set, 0),
        Value::LocalRef(place) => (Kind::LocalRef, place),
        Value::SectionRef(place) => (Kind::SectionRef, place),
        Value::StrOffset(place) => (Kind::StrOffset, place),
        Value::LineStrOffset(place) => (Kind::LineStrOffset, place),
        Value::StrIndex(number) => (Kind::StrIndex, number),
        Value::Offset(place) => (Kind::Offset, place),
        Value::LocIndex(number) => (Kind::LocIndex, number),
        Value::RangeIndex(number) => (Kind::RangeIndex, number),
        _ => return None,
    };
    Some((kind, u32::try_from(number).ok()?))
}

// The value of a kind with a number, where `others` are those that are held whole.
#[tactic(auto, unfolding(crate::specs::inside::Values::value_held))]
#[inline(always)]
fn widened(others: &[Value], kind: Kind, number: u32) -> Value
    requires { kind ≡ OtherKind → number < length others.now }
    ensures { result ≡ value_held others.now kind number }
{
    let wide = u64::from(number);
    match kind {
        Kind::Addr => Value::Addr(wide),
        Kind::AddrIndex => Value::AddrIndex(wide),
        Kind::Int => Value::Int(Whole::unsigned(wide)),
        Kind::FixedOne => Value::Fixed(1, wide),
        Kind::FixedTwo => Value::Fixed(2, wide),
        Kind::Clear => Value::Flag(false),
        Kind::Set => Value::Flag(true),
        Kind::LocalRef => Value::LocalRef(wide),
        Kind::SectionRef => Value::SectionRef(wide),
        Kind::StrOffset => Value::StrOffset(wide),
        Kind::LineStrOffset => Value::LineStrOffset(wide),
        Kind::StrIndex => Value::StrIndex(wide),
        Kind::Offset => Value::Offset(wide),
        Kind::LocIndex => Value::LocIndex(wide),
        Kind::RangeIndex => Value::RangeIndex(wide),
        Kind::Other => others[number as usize],
    }
}

impl Values {
    /// No values.
    pub(crate) fn new(alloc: Global) -> Values
        ensures { result ≡ [] }
    {
        Values {
            kinds: Vec::new(alloc),
            numbers: Vec::new(alloc),
            others: Vec::new(alloc),
        }
    }

    /// How many values there are.
    #[inline(always)]
    pub fn len(&self) -> usize
        ensures { result ≡ length self.now }
    {
        self.kinds.len()
    }

    /// Whether there are no values.
    pub fn is_empty(&self) -> bool
        ensures { IsTrue result ↔ (length self.now ≡ 0) }
    {
        self.len() == 0
    }

    // Appends a value that is of a kind with a number.
    fn push_narrow(&mut self, kind: Kind, number: u32) -> Result<(), NoMemory>
        requires { kind ≢ OtherKind }
        ensures pushed { OnOk result (self.new ≡ self.old ++ value_held [] kind number ∷ []) }
        ensures unchanged { OnErr result (self.new ≡ self.old) }
    {
        self.numbers.push(number)?;
        if self.kinds.push(kind).is_err() {
            self.numbers.pop();
            return Err(NoMemory);
        }
        Ok(())
    }

    // Appends a value, which is held whole.
    fn push_whole(&mut self, value: &Value) -> Result<(), NoMemory>
        ensures pushed { OnOk result (self.new ≡ self.old ++ value.now ∷ []) }
        ensures unchanged { OnErr result (self.new ≡ self.old) }
    {
        let Ok(number) = u32::try_from(self.others.len()) else {
            return Err(NoMemory);
        };
        self.others.push(*value)?;
        self.numbers.push(number)?;
        if self.kinds.push(Kind::Other).is_err() {
            self.numbers.pop();
            return Err(NoMemory);
        }
        Ok(())
    }

    /// Appends a value. The only error is want of memory, which also answers a value past the first 2^32 that are held whole; it
    /// changes nothing.
    pub(crate) fn push(&mut self, value: &Value) -> Result<(), NoMemory>
        ensures pushed { OnOk result (self.new ≡ self.old ++ value.now ∷ []) }
        ensures unchanged { OnErr result (self.new ≡ self.old) }
    {
        match narrowed(value) {
            Some((kind, number)) => self.push_narrow(kind, number),
            None => self.push_whole(value),
        }
    }

    /// The value with a number, counted from 0.
    #[inline(always)]
    pub fn value(&self, number: usize) -> Value
        requires { number < length self.now }
        ensures { result ≡ value_at self.now number }
    {
        widened(&self.others, self.kinds[number], self.numbers[number])
    }

    /// The value with a number, counted from 0, or None exactly where there are no more values than that.
    #[inline(always)]
    pub fn get(&self, number: usize) -> Option<Value>
        ensures { MatchOption result (length self.now ≤ number) (λ value. (number < length self.now) × (value ≡ value_at self.now number)) }
    {
        if number < self.len() {
            Some(self.value(number))
        } else {
            None
        }
    }

    /// All values, one after the other in the order of their numbers. It takes no memory.
    pub fn iter(&self) -> ValuesIter<'_>
        ensures { result ≡ self.now }
    {
        ValuesIter {
            values: self,
            next: 0,
        }
    }

    /// Gives the memory back that is held for values that weren't pushed.
    pub(crate) fn shrink_to_fit(&mut self)
        ensures { self.new ≡ self.old }
    {
        self.kinds.shrink_to_fit();
        self.numbers.shrink_to_fit();
        self.others.shrink_to_fit();
    }
}

/// Values one after the other, in the order of their numbers. Contracts see the list of those that are left.
#[derive(Drop)]
pub struct ValuesIter<'v> {
    values: &'v Values,
    // The number of the next one.
    next: usize,
}

impl<'v> Model for ValuesIter<'v> {
    ghost use Rattle.std.specs.Prelude.{◌≤◌, List, length, drop};
    ghost use Rattle.form_codec.specs.declared.value.Value.{Value as AnyValue};

    ghost Value = { List AnyValue };

    ghost view = { λ i. drop i.next i.values.now };

    ghost invariant = { λ i. i.next ≤ length i.values.now };
}

impl<'v> Iterator for ValuesIter<'v> {
    type Item = Value;

    ghost next_gives = { YieldsFirst (λ rest. rest) };

    ghost remaining = { item_count (λ rest. rest) };

    #[inline(always)]
    fn next(&mut self) -> Option<Value> {
        let number = self.next;
        if number == self.values.len() {
            return None;
        }
        self.next = number + 1;
        Some(self.values.value(number))
    }

    fn size_hint(&self) -> (usize, Option<usize>) {
        let left = self.len();
        (left, Some(left))
    }
}

impl<'v> ExactSizeIterator for ValuesIter<'v> {
    fn len(&self) -> usize {
        self.values.len() - self.next
    }
}

impl<'v> IntoIterator for &'v Values {
    type Item = Value;

    type IntoIter = ValuesIter<'v>;

    ghost into_iter_gives = { λ values iter. iter ≡ values.now };

    fn into_iter(self) -> ValuesIter<'v> {
        self.iter()
    }
}

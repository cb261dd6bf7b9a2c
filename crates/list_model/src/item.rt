// What lists say.
ghost use Rattle.std.specs.Prelude.{◌≡◌};

use dw_base::Span;
use std::marker::Model;

/// An item of a list: the addresses that a range or a bounded location covers, or a default location (DWARF 5 sections 2.6.2 and
/// 2.17.3).
#[derive(Clone, Copy, Debug, PartialEq, Eq)]
pub struct Item {
    /// The first address, or 0 for a default location.
    pub start: u64,
    /// The address past the last one, or 0 for a default location. It may be that of the start, or below it.
    pub end: u64,
    /// Whether this is a default location: it covers every address that no other item does.
    pub whole: bool,
    /// The bytes of its expression, from the first byte of the list's section on, or none at 0 for a range.
    pub expr: Span,
}

/// The items of a list, in its order. Contracts see them as a list.
#[derive(Drop)]
pub struct Items {
    items: Vec<Item>,
}

impl Model for Items {
    ghost use Rattle.std.specs.Prelude.{List};
    ghost use Rattle.list_model.specs.declared.item.Item.{Item as AnyItem};

    ghost Value = { List AnyItem };

    ghost view = { λ i. i.items.items };
}

impl Items {
    /// These items. It takes no memory.
    pub fn new(items: Vec<Item>) -> Items
        ensures { result ≡ items.items }
    {
        Items { items }
    }

    /// The items, as a slice. It takes no memory.
    pub fn as_slice(&self) -> &[Item]
        ensures { result.now ≡ self.now }
    {
        self.items.as_slice()
    }

    /// The items. It takes no memory.
    pub fn into_vec(self) -> Vec<Item>
        ensures { result.items ≡ self }
    {
        self.items
    }
}

/// What a list says in a context.
#[derive(Drop)]
pub enum Meaning {
    /// The list has these items.
    Live(Items),
    /// A start or an end of the list is a sum of 2^64 or more.
    Dead,
}

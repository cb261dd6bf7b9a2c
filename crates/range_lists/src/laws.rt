// Laws of the definitions.
ghost use Rattle.range_lists.specs.Laws.{RangesEnd, OneRangeList, RangesSpelled, RangesWritten, RangesWhole, OneMeaning, ItemsWhole};

use list_model::{entries_end, entries_say};

/// Laws of the bytes of range lists: they end by themselves, one list is read at a place and is spelled there, and a list that is
/// read has no fault, where its entries keep the limit.
pub fn ranges_end()
    ensures unique { RangesEnd }
    ensures one { OneRangeList }
    ensures spelled { RangesSpelled }
    ensures whole { RangesWhole }
{
    entries_end();
}

/// A law of the bytes of range lists: where the bytes of entries and an end stand at a place, they are read there.
pub fn ranges_written()
    ensures { RangesWritten }
{}

/// Laws of what range lists say: one thing in a context, and then no index that they ask for is one that can't be looked up.
pub fn ranges_mean()
    ensures one { OneMeaning }
    ensures whole { ItemsWhole }
{
    entries_say();
}

// Laws of the definitions.
ghost use Rattle.loc_lists.specs.Laws.{LocationEntriesEnd, LocationEntriesApart, LocationEntriesWhole, LocationsEnd, OneLocationList, LocationsSpelled, LocationsWritten, LocationsWhole, OneMeaning, ItemsWhole, ItemsSaid, BoundsEach, BoundsCounted, OneRun, RunsWhole, ViewsWhole};

use list_model::{entries_end, entries_say};

/// Laws of the bytes of location lists: those of an entry with its expression end by themselves, never begin with the end of a
/// list, and have no fault. Those of a list end by themselves, one list is read at a place and is spelled there with its
/// expressions, and a list that is read has no fault, where its entries keep the limit.
pub fn locations_end()
    ensures entries { LocationEntriesEnd }
    ensures apart { LocationEntriesApart }
    ensures sound { LocationEntriesWhole }
    ensures unique { LocationsEnd }
    ensures one { OneLocationList }
    ensures spelled { LocationsSpelled }
    ensures whole { LocationsWhole }
{
    entries_end();
}

/// A law of the bytes of location lists: where the bytes of entries with their expressions and an end stand at a place, they are
/// read there, and the expressions lie where this says.
pub fn locations_written()
    ensures { LocationsWritten }
{}

/// Laws of what location lists say: one thing in a context, and then no index that they ask for is one that can't be looked up.
/// The entries that set no base are the items, and each of these has its bounds, in their order.
pub fn locations_mean()
    ensures one { OneMeaning }
    ensures whole { ItemsWhole }
    ensures items { ItemsSaid }
    ensures each { BoundsEach }
    ensures counted { BoundsCounted }
{
    entries_say();
}

/// Laws of view pairs: at a place stands one run of so many, and it has no fault; as a whole it has none where it keeps the limit.
pub fn views_read()
    ensures one { OneRun }
    ensures runs { RunsWhole }
    ensures whole { ViewsWhole }
{}

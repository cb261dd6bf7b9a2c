// Laws of the definitions.
ghost use Rattle.list_model.specs.Laws.{OneTable, TablesWhole, FilledWhole, OneTiling, ContributionsWhole, OneHolder, EntriesEnd, EntriesApart, EntriesWhole, EndsWhole, OneSaying, OneWalk, ClosestBase, WalksWhole, WalksSettled};

/// Laws of address tables: a base is that of at most one table, and where it is that of one, no table up to there has a fault,
/// this one included. Where tables fill the section, none has a fault.
pub fn addresses_have_one_table()
    ensures unique { OneTable }
    ensures whole { TablesWhole }
    ensures filled { FilledWhole }
{}

/// Laws of contributions: they tile a section in one way, and then it has no fault, and a list can begin at a place in one of
/// them at most.
pub fn contributions_tile()
    ensures unique { OneTiling }
    ensures whole { ContributionsWhole }
    ensures holder { OneHolder }
{}

/// Laws of the bytes of entries: they end by themselves, none begins with the end of a list, and bytes that begin with an entry
/// or with the end of a list have none of the faults.
pub fn entries_end()
    ensures unique { EntriesEnd }
    ensures apart { EntriesApart }
    ensures whole { EntriesWhole }
    ensures ended { EndsWhole }
{}

/// Laws of what entries say: one list of them is said by what was read, they give one list of bounds in a context, each under the
/// base of the closest entry before it that sets one, and then no index that they ask for is one that can't be looked up. Where
/// they give none, there is such an index.
pub fn entries_say()
    ensures said { OneSaying }
    ensures walk { OneWalk }
    ensures closest { ClosestBase }
    ensures whole { WalksWhole }
    ensures settled { WalksSettled }
{}

// Laws of the definitions.
ghost use Rattle.entry_arena.specs.Ends.{WholeWalksEndChains};
ghost use Rattle.entry_arena.specs.ForestLaws.{TreesAreWalks, TablesHaveCodes, WalksAgree, WholeWalksAreLongest, OneWholeWalk, OneForest, WalksHaveRuns, WalksRise, GoingWalksStep, StepsHaveNoFault, WalksWithoutEntries, RootsHaveCodes};
ghost use Rattle.entry_arena.specs.Fronts.{WalksAreSpelled, WalksComeToEntries, WalksComeToEnds};
ghost use Rattle.entry_arena.specs.Growing.{SectionsGrow, WalksArePushed};
ghost use Rattle.entry_arena.specs.Onward.{WalksGoOn};
ghost use Rattle.entry_arena.specs.Places.{WalksAreInOrder, WalksStandBefore, ValuesComeNext, EntriesComeNext, EndsComeNext};
ghost use Rattle.entry_arena.specs.Preorders.{PreordersAreForests};
ghost use Rattle.entry_arena.specs.Standing.{EntriesStand};
ghost use Rattle.entry_arena.specs.Spellings.{ForestsAreSpelled, SpelledForestsAreListed, ForestsEnd};

/// A law: the entries of a unit, as a tree by recursion over siblings and children (DWARF 5 section 2.3), are those that a
/// walk over the entries in preorder lists, in which each code 0 ends the innermost chain of siblings that is open, and which
/// is whole when none is.
pub fn trees_are_walks()
    ensures { TreesAreWalks }
{}

/// Laws: under the codes of a table, the entries of a unit, with their values and places, are the only ones that its bytes
/// spell. Walks from the same start agree as far as both go, and no proper front of a whole walk is whole.
pub fn one_forest()
    ensures codes { TablesHaveCodes }
    ensures agree { WalksAgree }
    ensures longest { WholeWalksAreLongest }
    ensures walk { OneWholeWalk }
    ensures forest { OneForest }
{}

/// Laws: how many codes 0 stand after an entry follows from its depth, from whether it has children, and from the depth of
/// the next entry. Entries in preorder with these codes 0 are the bytes of a tree, and each tree has such bytes.
pub fn runs()
    ensures walks { WalksHaveRuns }
    ensures preorders { PreordersAreForests }
{}

/// Laws: places and counts rise along a walk, and where a front of a whole walk goes on, the bytes have no fault.
pub fn steps_whole()
    ensures rise { WalksRise }
    ensures next { GoingWalksStep }
    ensures faultless { StepsHaveNoFault }
    ensures unread { WalksWithoutEntries }
    ensures roots { RootsHaveCodes }
{}

/// Laws: what is listed of a unit's entries is a forest that the bytes spell, each forest that the bytes spell can be listed,
/// and a forest ends by itself.
pub fn forests_spelled()
    ensures told { ForestsAreSpelled }
    ensures found { SpelledForestsAreListed }
    ensures ends { ForestsEnd }
{}

/// Laws: the place of an entry, and of a code 0 that ends a chain, is where what is spelled before it ends, and its depth is
/// how many chains are open there.
pub fn places_follow()
    ensures spelled { WalksAreSpelled }
    ensures entries { WalksComeToEntries }
    ensures ends { WalksComeToEnds }
{}

/// A law: an entry that has children by its declaration has one code 0 that ends them, and each code 0 is that of such an
/// entry.
pub fn chains_end_once()
    ensures { WholeWalksEndChains }
{}

/// Laws: what a walk lists is in order and stands before the place that it has come to. So places of entries and of codes 0
/// rise and are apart.
pub fn walks_in_order()
    ensures order { WalksAreInOrder }
    ensures after { WalksStandBefore }
{}

/// Laws: what stands next after a walk may be pushed: the values of an entry one after the other, then the entry; and a code
/// 0 that ends a chain.
pub fn steps_in_order()
    ensures value { ValuesComeNext }
    ensures entry { EntriesComeNext }
    ensures chain_end { EndsComeNext }
{}

/// A law: each entry of a unit is its code and the values of its columns, which stand from its place on up to its end.
pub fn entries_stand()
    ensures { EntriesStand }
{}

/// Laws: bytes that are appended to a section change nothing of what stands before them, and a walk is a longer one with the
/// entry or the code 0 that stands next.
pub fn walks_stay()
    ensures stay { SectionsGrow }
    ensures push { WalksArePushed }
{}

/// A law: a front of a whole walk goes on with the first, by its place, of the entries and the codes 0 that aren't listed yet,
/// and has come to its end where all are.
pub fn walks_go_on()
    ensures { WalksGoOn }
{}

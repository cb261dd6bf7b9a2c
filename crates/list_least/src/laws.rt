// Laws of the definitions.
ghost use Rattle.list_least.specs.Laws.{AcceptedBound, PlansLeast, CandidateBases, ShortestLists, PlannedLeast, FrozenLeast};

/// Laws of the records by which a checker sees that a list is least: where one is accepted, no list with these items is shorter
/// than its size, and one that is no longer is least. It does nothing when it runs.
pub fn no_shorter()
    ensures bound { AcceptedBound }
    ensures least { PlansLeast }
{}

/// A law of bases: which ones suffice for items that stand under one base. It does nothing when it runs.
pub fn few_bases()
    ensures candidates { CandidateBases }
{}

/// Laws of the shortest bytes of entries: those of a plan are the least list with its items, and exactly as many as its size, and
/// those of the entries of a frozen list, which keeps its entries, are the shortest that spell them. It does nothing when it runs.
pub fn shortest_lists()
    ensures shortest { ShortestLists }
    ensures planned { PlannedLeast }
    ensures frozen { FrozenLeast }
{}

// Laws of the definitions.
ghost use Rattle.std.specs.Prelude.{ℕ, List, ◌++◌};
ghost use Rattle.std.specs.List.{All};
ghost use Rattle.dw_base.specs.declared.fault.Kind.{Kind as AnyKind};
ghost use Rattle.spelled.specs.Spelled.{HasUniqueFronts, NeverBoth};
ghost use Rattle.abbrev_tables.specs.Tables.{SpellsColumns, Declared, SpellsDeclared, SpellsTable, codes_of, AreDistinct};
ghost use Rattle.abbrev_tables.specs.Faults.{FaultTable};
ghost use Rattle.abbrev_tables.specs.Written.{ShortestTable, IsWritable};
ghost use Rattle.abbrev_tables.specs.ListingLaws.{OneListing, TablesAreListed};

/// A law: columns, a declaration and a table end by themselves, so that bytes begin with no more than one of them.
pub fn tables_end()
    ensures columns { HasUniqueFronts SpellsColumns }
    ensures declarations { HasUniqueFronts SpellsDeclared }
    ensures tables { HasUniqueFronts SpellsTable }
{}

/// A law: bytes that begin with a table have no fault. So a table is refused only where none stands.
pub fn tables_whole()
    ensures { NeverBoth SpellsTable FaultTable }
{}

/// A law: a table that is written is one that is read, where its declarations are such as a table can have.
pub fn tables_written()
    ensures { (ds : List Declared) (bytes : List ℕ) → All IsWritable ds → AreDistinct (codes_of ds) → ShortestTable ds bytes → SpellsTable ds bytes }
{}

/// Laws of tables as they are held: a table that stands at a place is held in one way, and all that is spelled can be held.
pub fn listings()
    ensures once { OneListing }
    ensures some { TablesAreListed }
{}

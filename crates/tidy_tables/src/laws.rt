// Laws of files that are written anew.
ghost use Rattle.tidy_tables.specs.Laws.{WrittenTablesAreTidy};

/// A law: the abbreviation tables of a file that is written anew for another, their declarations and the declarations of its entries are
/// as a writer makes them: no row holds anywhere (DWARF 5 sections 7.5.2 and 7.5.3).
pub fn written_tables()
    ensures { WrittenTablesAreTidy }
{}

// What is read of a file before its values are looked up.
ghost use Rattle.std.specs.Prelude.{◌≡◌};
ghost use Rattle.value_links.specs.Parts.{lists_in, bases_in};

use crate::list_places::Contributions;
use crate::units::Units;
use entry_arena::Operations;
use line_machine::Head;
use list_model::{AddrTable, Context, ListKind};

/// What the values of a file refer to.
#[derive(Drop)]
pub struct Parts<'a> {
    /// The headers of the line number programs of .debug_line, in their order.
    pub programs: Vec<Head>,
    /// The units of .debug_info, with the abbreviation tables that they name.
    pub units: Units<'a>,
    /// Of each unit the context of its lists.
    pub contexts: Vec<Context>,
    /// The body of .debug_addr.
    pub addr: &'a [u8],
    /// Its address tables, up to its end or to one that has a fault.
    pub tables: Vec<AddrTable>,
    /// The section of range lists.
    pub ranges: Contributions<'a>,
    /// The section of location lists.
    pub locations: Contributions<'a>,
    /// Of each unit the operations of its expressions.
    pub operations: Vec<Operations>,
    /// Of each unit the number of the contribution that its root names for the indexes of range lists.
    pub range_bases: Vec<Option<u32>>,
    /// The same for the indexes of location lists.
    pub location_bases: Vec<Option<u32>>,
}

impl<'a> Parts<'a> {
    /// The section of lists of a kind.
    pub(crate) fn lists(&self, kind: ListKind) -> &Contributions<'a>
        ensures { result.now ≡ lists_in self.now kind }
    {
        match kind {
            ListKind::Ranges => &self.ranges,
            ListKind::Locations => &self.locations,
        }
    }

    /// Of each unit the number of the contribution that its root names for the indexes of lists of a kind.
    pub(crate) fn bases(&self, kind: ListKind) -> &[Option<u32>]
        ensures { result.now ≡ bases_in self.now kind }
    {
        match kind {
            ListKind::Ranges => &self.range_bases,
            ListKind::Locations => &self.location_bases,
        }
    }
}

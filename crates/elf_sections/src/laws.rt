// Laws about the definitions.
ghost use Rattle.elf_sections.specs.Faults.{ImagesAreWhole};
ghost use Rattle.elf_sections.specs.Headers.{ReadsFileHeaders, ReadsSegmentHeaders, ReadsSectionHeaders};

/// A law: where bytes spell a header of the System V ABI (ELF-64), the fields that the contracts speak of are that
/// header's.
pub fn headers_are_the_abis()
    ensures file { ReadsFileHeaders }
    ensures segment { ReadsSegmentHeaders }
    ensures section { ReadsSectionHeaders }
{}

/// A law: a file that is read has no fault of the first pass, which looks at the header, the tables and the sections that
/// these tell, and none of the second, which looks at names.
pub fn images_whole()
    ensures { ImagesAreWhole }
{}

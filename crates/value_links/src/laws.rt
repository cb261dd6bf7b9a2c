// Laws of the definitions.
ghost use Rattle.value_links.specs.Sections.{FindsSections};
ghost use Rattle.value_links.specs.Parts.{LinkedFilesMean};
ghost use Rattle.value_links.specs.Laws.{OneLinkable, OneReading, OneLinked, OneLinkedValue, OneLink, OneMeaning, LinkedMean, OneDebug, LinkedHaveNoFault, LinkedExpressionsHaveNoFault, LinkedOrFaulty, FirstFaultsDecide, MeaningFilesAreValid, ValidFilesMean};

/// A law: the section of a name is found exactly where one has it, and is the first that does.
pub fn sections_found()
    ensures { FindsSections }
{}

/// Laws: a file is read in one way: what its values refer to, which is its line number programs and their rows, its units with
/// their tables, entries and values, the contexts of their lists, and its contributions of range lists and of location lists;
/// the lists of both kinds that something names; and its sets of address ranges.
pub fn one_reading()
    ensures links { OneLinkable }
    ensures reading { OneReading }
{}

/// Laws: the value of an attribute refers to one thing and means one thing. A place in .debug_info is that of one entry, or of one
/// code 0 that ends the children of an entry, of one unit; a place in .debug_line that of one program; and a place in
/// .debug_rnglists or .debug_loclists that of one list, whose owner is one. A value that is linked means something, where it is
/// told of each list who owns it and whether it is frozen.
pub fn one_meaning()
    ensures linked { OneLinked }
    ensures meaning { OneMeaning }
    ensures means { LinkedMean }
{}

/// Laws: the value with a number among those of a unit's entries refers to one thing, and so it has one link: its number tells the
/// entry that has it, and the name of the attribute.
pub fn one_link()
    ensures value { OneLinkedValue }
    ensures link { OneLink }
{}

/// A law: a file has one debug meaning. So two files mean the same exactly where what the one means the other means too.
pub fn one_debug()
    ensures { OneDebug }
{}

/// Laws: the value of an attribute is linked or has a fault, and never both. So is an expression within the limits, whose operations
/// name what they may.
pub fn linked_whole()
    ensures some { LinkedOrFaulty }
    ensures whole { LinkedHaveNoFault }
    ensures expressions { LinkedExpressionsHaveNoFault }
{}

/// A law: a fault of a pass is one of the file, where the passes before it find all in order.
pub fn first_faults_decide()
    ensures { FirstFaultsDecide }
{}

/// Laws: a valid file that is read means something. And a file that is in order, of which all is read, that means something
/// and keeps the limits is valid. So no fault stands beside a meaning, and none is missing where there is no meaning.
pub fn valid_files()
    ensures mean { ValidFilesMean }
    ensures whole { MeaningFilesAreValid }
{}

/// A law: a file of which all is read, each of whose values refers to what it may and each of whose type units names an entry,
/// means something.
pub fn linked_files_mean()
    ensures { LinkedFilesMean }
{}

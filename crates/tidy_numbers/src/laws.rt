// Laws of files that are written anew.
ghost use Rattle.tidy_numbers.specs.Laws.{WrittenNumbersAreShort};

/// A law: no LEB128 number of a file that is written anew for another has a byte too many, those aside that slots and lists are judged by
/// (DWARF 5 section 7.6).
pub fn written_numbers()
    ensures { WrittenNumbersAreShort }
{}

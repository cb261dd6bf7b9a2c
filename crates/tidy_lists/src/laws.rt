// Laws of files that are written anew.
ghost use Rattle.tidy_lists.specs.Laws.{WrittenListsAreInPlace};

/// A law: the lists and view pairs of a file that is written anew for another stand where they are due, and its contributions hold nothing
/// else: no row holds anywhere (DWARF 5 sections 7.28 and 7.29).
pub fn written_lists()
    ensures { WrittenListsAreInPlace }
{}

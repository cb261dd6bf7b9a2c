// Laws of files that are written anew.
ghost use Rattle.verdict.specs.Laws.{WrittenAreAccepted};

use check_records::written_records;
use tidy_files::written_classes;
use unit_slots::written_slots;

/// A law: a file that is written anew for another is accepted with its certificate. So nothing that is written so is rejected.
pub fn written_are_accepted()
    ensures { WrittenAreAccepted }
{
    written_classes();
    written_slots();
    written_records();
}

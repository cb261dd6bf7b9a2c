// Laws of files that are written anew.
ghost use Rattle.tidy_files.specs.Laws.{WrittenFilesAreTidy, TidyFilesAreWhole};

use tidy_lists::written_lists;
use tidy_numbers::written_numbers;
use tidy_places::laid_out_files;
use tidy_tables::written_tables;

/// A law: a file that is written anew for another is tidy: none of the rows holds anywhere.
pub fn written_classes()
    ensures { WrittenFilesAreTidy }
{
    laid_out_files();
    written_tables();
    written_lists();
    written_numbers();
}

/// A law: what a tidy file holds. Where no row holds of two files that mean the same, the written file's abbreviation tables tile .debug_abbrev
/// in the order of the old ones, its entries have the declarations that correspond to the old ones, and its contributions are filled by the
/// lists and view pairs that something names.
pub fn tidy_files_are_whole()
    ensures { TidyFilesAreWhole }
{}

// Where what section offsets name stands in a file that is written anew.
ghost use Rattle.std.specs.Prelude.{◌≡◌, length, IfOk};
ghost use Rattle.list_write.specs.declared.image.Moved.{Moved as AnyMoved};
ghost use Rattle.rewriter.specs.inside.NewPlaces.{AreMovedViews};

use dw_base::NoMemory;
use list_arena::Views;
use list_model::Contribution;
use list_write::Moved;
use std::alloc::Global;

/// A section of lists that is written anew.
#[derive(Drop)]
pub struct ListPlaces {
    /// Its contributions, in the order of the old ones.
    pub parts: Vec<Contribution>,
    /// Where each list that something names began and begins now, by rising places.
    pub lists: Vec<Moved>,
}

/// Where view pairs began, and where they begin now.
#[derive(Clone, Copy, Debug, PartialEq, Eq)]
pub struct MovedViews {
    /// Where the list began with which they go.
    pub list: u64,
    /// Where they did.
    pub old: u64,
    /// Where they begin now.
    pub new: u64,
}

/// The new places of what section offsets name.
#[derive(Drop)]
pub struct NewPlaces {
    /// Where each line number program begins in the new .debug_line, in their order.
    pub programs: Vec<u64>,
    /// The contributions and the lists of the new .debug_rnglists.
    pub ranges: ListPlaces,
    /// Those of the new .debug_loclists.
    pub locations: ListPlaces,
    /// The view pairs of location lists, by the old places of the lists, and those of one list by their own.
    pub views: Vec<MovedViews>,
}

/// Where view pairs began, of which the ones with a number begin now where `moved` says of this number.
pub fn moved_views(
    alloc: Global,
    views: &Views,
    moved: &Vec<Moved>,
) -> Result<Vec<MovedViews>, NoMemory>
    requires { length moved.now.items ≡ length views.now }
    ensures { IfOk result (λ places. AreMovedViews views.now moved.now.items places.items) }
{
    let mut places: Vec<MovedViews> = Vec::with_capacity(alloc, views.len())?;
    for number in 0..views.len() {
        places.push(MovedViews {
            list: views.list(number),
            old: views.at(number),
            new: moved[number].new,
        })?;
    }
    Ok(places)
}

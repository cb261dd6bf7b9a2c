// Laws of files that are written anew.
ghost use Rattle.unit_slots.specs.Laws.{WrittenSlotsStand, LeastLayoutsStand};

/// Laws: the slots of the units of a file that is written anew for another have the bytes that their numbers need (DWARF 5 sections 2.5,
/// 2.6.2, 7.5.5 and 7.6). So the layouts that are least by what numbers need are least as they stand.
pub fn written_slots()
    ensures stand { WrittenSlotsStand }
    ensures least { LeastLayoutsStand }
{}

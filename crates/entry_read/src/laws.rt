// Laws of the definitions.
ghost use Rattle.entry_read.specs.Laws.{OneTiling, HeadsWhole, OneUnit, UnitsWhole};
ghost use Rattle.entry_read.specs.Places.{UnitsLie, OnlyLimitsCount, UnitsRise, ValuesBelong};

/// Laws of headers: units tile a section in one way, and then no header has a fault, and the units rise.
pub fn heads_tile()
    ensures unique { OneTiling }
    ensures whole { HeadsWhole }
    ensures rise { UnitsRise }
{}

/// Laws of units: bytes make one forest, and a unit that keeps the limits has no fault. So a unit is refused only where
/// it is none.
pub fn units_whole()
    ensures unique { OneUnit }
    ensures whole { UnitsWhole }
{}

/// Laws of places: what is held of a unit is in order and stands in it after its header, each value is one of an entry, and only
/// a limit asks how many entries and values stand before the unit.
pub fn units_lie()
    ensures lie { UnitsLie }
    ensures belong { ValuesBelong }
    ensures limits { OnlyLimitsCount }
{}

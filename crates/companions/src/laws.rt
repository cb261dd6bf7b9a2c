// Laws of the definitions.
ghost use Rattle.companions.specs.Laws.{OneTiling, SetsWhole};

/// Laws of sets: they tile a section in one way, where no two units begin at one place, and then it has no fault.
pub fn sets_tile()
    ensures unique { OneTiling }
    ensures whole { SetsWhole }
{}

// Laws of the definitions.
ghost use Rattle.same_meaning.specs.Laws.{SameWithoutReason};

/// A law: two valid files mean the same exactly where there is no reason why they don't.
pub fn reasons_decide()
    ensures { SameWithoutReason }
{}

// Laws of the definitions.
ghost use Rattle.tidy_places.specs.Laws.{LaidOutIsInPlace, BareIsInPlace};

/// A law: a file that is laid out anew has nothing amiss, and neither has one without sections that stays as it is.
pub fn laid_out_files()
    ensures laid_out { LaidOutIsInPlace }
    ensures bare { BareIsInPlace }
{}

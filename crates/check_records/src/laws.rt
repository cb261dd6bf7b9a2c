// Laws of files that are written anew.
ghost use Rattle.check_records.specs.Laws.{CertificatesAreAccepted};

/// A law: where the slots of each unit stand in the bytes that their numbers need, a certificate whose records are accepted by these is
/// accepted by those that stand.
pub fn written_records()
    ensures { CertificatesAreAccepted }
{}

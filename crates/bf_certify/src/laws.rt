//! Laws of certificates that are told. A function here does nothing: its contract is the law.
ghost use Rattle.bf_certify.specs.Laws as laws;

/// What `check` tells of a file is right: its certificate holds, or the line is named at which its reading stops.
pub fn files_are_told()
    ensures { laws.AreFilesTold }
{}

/// A file that does not begin as an answer is told of as a certificate.
pub fn certificates_are_told()
    ensures { laws.AreCertificatesTold }
{}

/// What is told of the text of a certificate is right: it is that of a certificate that holds, or the line that is named is the first
/// one with which it is the beginning of none.
pub fn checks_are_right()
    ensures { laws.AreChecked }
{}

/// The certificate that `certify` tells of a run which found the first bad commit is accepted by `check` over the
/// same history, for the bad commit of its search, where the names of its commits lead back to them.
pub fn told_certificates_are_accepted()
    ensures { laws.AreAccepted }
{}

//! Laws of certificates, each the contract of a function with nothing to do.
ghost use Rattle.certificate_laws.specs.Laws.{SnapshotsAreRead, WrittenAreCertificates};
ghost use Rattle.certificate_laws.specs.Laws.{TextsAreVerified};
ghost use Rattle.certificate_laws.specs.Explained.{ExplainedAreCertificates};

/// The facts that a line says are said again by the line that is written of them, which is no
/// longer.
pub fn snapshots_are_read()
    ensures { SnapshotsAreRead }
{}

/// A proof of few steps that is written of a snapshot that a line says is a certificate.
pub fn written_are_certificates()
    ensures { WrittenAreCertificates }
{}

/// Yes is told of each of the proofs whose texts stand one behind the other, and nothing else.
pub fn texts_are_verified()
    ensures { TextsAreVerified }
{}

/// Each proof that may be told of a snapshot that a line says is a certificate.
pub fn explained_are_certificates()
    ensures { ExplainedAreCertificates }
{}

//! The law of the text of containments, the contract of a function with nothing to do.
ghost use Rattle.containment_text.specs.Containments.{OneContainment};

/// The containments of the same queries are one text.
pub fn one_containment()
    ensures { OneContainment }
{}

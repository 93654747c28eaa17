// The laws of the certificates of checked scripts, each a call that does nothing.
ghost use Rattle.cap_plan_laws.specs.Laws.{CategoriesAreFew, CategoriesStand, CertificatesAreAccepted, NothingElseIsSaid, CertificatesAreShort};

/// A checked script has at most 16 categories.
pub fn law_categories_are_few()
    ensures { CategoriesAreFew }
{}

/// Each category of a checked script can stand in a certificate: by its name and its registered weights.
pub fn law_categories_stand()
    ensures { CategoriesStand }
{}

/// The certificates of a checked script with a category are accepted.
pub fn law_certificates_are_accepted()
    ensures { CertificatesAreAccepted }
{}

/// The certificates of a checked script with a category are neither rejected nor refused.
pub fn law_accepted_alone()
    ensures { NothingElseIsSaid }
{}

/// The certificates of a checked script have at most 1,048,576 bytes together.
pub fn law_certificates_are_short()
    ensures { CertificatesAreShort }
{}

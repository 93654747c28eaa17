// The laws of written certificates, each a call that does nothing.
ghost use Rattle.cap_cert_laws.specs.Laws.{WrittenCertificateIsRead, WrittenCertificatesAreRead, FirstLinesStand, WrittenTextIsShort, PlansAreWritable, PlansAreAccepted, AcceptedIsSaid};

/// The text that is written for a plan is a text of the certificate with this plan.
pub fn law_written_certificate_is_read()
    ensures { WrittenCertificateIsRead }
{}

/// The texts of 1 to 16 certificates, one behind the other, are a text of these certificates.
pub fn law_written_certificates_are_read()
    ensures { WrittenCertificatesAreRead }
{}

/// The number of each certificate's first line is that of the line where its text begins.
pub fn law_first_lines_stand()
    ensures { FirstLinesStand }
{}

/// The texts of 1 to 16 certificates have at most 1,048,576 bytes together.
pub fn law_written_text_is_short()
    ensures { WrittenTextIsShort }
{}

/// The plan of a category by the 59 rules can be written as a certificate.
pub fn law_plans_are_writable()
    ensures { PlansAreWritable }
{}

/// What is written for the plans of 1 to 16 categories by the 59 rules is accepted.
pub fn law_plans_are_accepted()
    ensures { PlansAreAccepted }
{}

/// A text that is accepted is neither rejected nor refused.
pub fn law_accepted_is_said()
    ensures { AcceptedIsSaid }
{}

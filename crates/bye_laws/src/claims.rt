//! Certificates and their claims.

ghost use Rattle.bye_laws.specs.Claiming.{ClaimsByLists, FirstClaims, ValuesAreListed};
ghost use Rattle.bye_laws.specs.Completeness.{CertificatesAreEnough, CertificatesAreSound};

/// A certificate that shows is right: no query of its class fits.
pub fn certificates_are_sound()
    ensures { CertificatesAreSound }
{}

/// Where no query of the class fits, some certificate shows it.
pub fn certificates_are_enough()
    ensures { CertificatesAreEnough }
{}

/// A claim shows exactly where the lists of a node say so.
pub fn claims_by_lists()
    ensures { ClaimsByLists }
{}

/// The values of an extension, listed in the table's order, are the same, of different variables, and there are some.
pub fn values_are_listed()
    ensures { ValuesAreListed }
{}

/// The first claim of a class shows, is there where any claim of the class shows, and is one but for the values of an extension.
pub fn first_claims()
    ensures { FirstClaims }
{}

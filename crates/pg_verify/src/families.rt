//! Families of kinds: which headings begin their certificates, and in which order their kinds come.

ghost use Rattle.std.specs.Prelude.{◌≡◌, ◌<◌, IfSome};
ghost use Rattle.pg_cert.specs.Verdicts.{kind_count};
ghost use Rattle.pg_cert.specs.Texts.{family_of};
ghost use Rattle.pg_cert.specs.Validity.{may_remove};
ghost use Rattle.pg_verify.specs.Taking.{same_family, kind_place};

use pg_cert::{Family, Heading};
use pg_type::Kind;

/// Whether two families are one.
pub fn same_family(x: Family, y: Family) -> bool
    ensures { result ≡ same_family x y }
{
    match (x, y) {
        (Family::Plain, Family::Plain) => true,
        (Family::Plain, Family::Hybrid) => false,
        (Family::Hybrid, Family::Plain) => false,
        (Family::Hybrid, Family::Hybrid) => true,
    }
}

/// The family of a certificate that begins so.
pub fn family_of(heading: Heading) -> Family
    ensures { result ≡ family_of heading }
{
    match heading {
        Heading::PlainOne => Family::Plain,
        Heading::PlainTwo => Family::Plain,
        Heading::HybridOne => Family::Hybrid,
    }
}

/// Whether clauses may be taken away in a certificate that begins so.
pub fn may_remove(heading: Heading) -> bool
    ensures { result ≡ may_remove heading }
{
    match heading {
        Heading::PlainOne => false,
        Heading::PlainTwo => true,
        Heading::HybridOne => true,
    }
}

/// The place of a kind among those of a family, if it is one of them.
pub fn kind_place(family: Family, kind: Kind) -> Option<usize>
    ensures place { result ≡ kind_place family kind }
    ensures within { IfSome result (λ place. place < kind_count family) }
{
    match family {
        Family::Plain => match kind {
            Kind::Privileged => Some(0),
            Kind::Control => Some(1),
            Kind::ModeDep => Some(2),
            Kind::Location => Some(3),
            Kind::Bound => Some(4),
            Kind::UControl => None,
            Kind::ULocation => None,
            Kind::UBound => None,
        },
        Family::Hybrid => match kind {
            Kind::Privileged => Some(0),
            Kind::Control => None,
            Kind::ModeDep => None,
            Kind::Location => None,
            Kind::Bound => None,
            Kind::UControl => Some(1),
            Kind::ULocation => Some(2),
            Kind::UBound => Some(3),
        },
    }
}

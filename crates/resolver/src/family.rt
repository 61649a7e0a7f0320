// The two families of addresses.
ghost use Rattle.std.specs.Prelude.{◌≡◌};
ghost use Rattle.resolver.specs.Queries.{kind_of};

/// A family of addresses, and the type of the records that hold them.
#[derive(Clone, Copy, Debug, PartialEq, Eq)]
pub enum Family {
    /// IPv4, by records of type A (RFC 1035 section 3.4.1).
    V4,
    /// IPv6, by records of type AAAA (RFC 3596 section 2.1).
    V6,
}

// Returns the number of the type of this family's records.
pub(crate) fn kind_of(family: Family) -> u8
    ensures { result ≡ kind_of family }
{
    match family {
        Family::V4 => 1,
        Family::V6 => 28,
    }
}

// Texts that are the same by casemapping: that of RFC 2812 section 2.2, or a server's.
ghost use Rattle.std.specs.Prelude.{◌≡◌};
ghost use Rattle.rfccase.specs.Casemapping.{is_same, is_same_by};

use rfccase::{Casemapping, same};

// Whether two texts are the same by the casemapping of RFC 2812.
pub(crate) fn is_same(a: &[u8], b: &[u8]) -> bool
    ensures { result ≡ is_same a.now b.now }
{
    same(a, b)
}

// Whether two texts are the same by a server's casemapping.
pub(crate) fn same_by(mapping: Casemapping, a: &[u8], b: &[u8]) -> bool
    ensures { result ≡ is_same_by mapping a.now b.now }
{
    rfccase::same_by(mapping, a, b)
}

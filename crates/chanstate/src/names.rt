// When two names are the same.
ghost use Rattle.std.specs.Prelude.{◌≡◌};
ghost use Rattle.rfccase.specs.Casemapping.{is_same_by};

use rfccase::{Casemapping, same_by};

/// Returns whether the nicks, or names of channels, `a` and `b` are the same by the casemapping `mapping`.
pub fn is_same(mapping: Casemapping, a: &[u8], b: &[u8]) -> bool
    ensures { result ≡ is_same_by mapping a.now b.now }
{
    same_by(mapping, a, b)
}

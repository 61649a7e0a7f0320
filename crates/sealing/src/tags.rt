// Whether a tag is the right one.
ghost use Rattle.std.specs.Prelude.{◌≡◌, length};
ghost use Rattle.std.specs.Str.{bytes_eq};
ghost use Rattle.sealing.specs.declared.limits.TheConstants.{TAG};

use crate::limits::TAG;

// Whether `tag` and `other` are the same. Compares every byte, wherever they differ, so the time reveals nothing about
// the right tag.
#[tactic(auto, using(crate::proofs::TagLemmas::one_more_byte))]
pub(crate) fn is_same_tag(tag: &[u8; TAG], other: &[u8]) -> bool
    requires { length other.now ≡ TAG }
    ensures { result ≡ bytes_eq tag.now other.now }
{
    let mut differing: u32 = 0;
    for (i, byte) in tag.iter().enumerate() {
        differing += u32::from(*byte != other[i]);
    }
    differing == 0
}

// The byte of the casemapping by which a person is compared.
ghost use Rattle.std.specs.Prelude.{◌≡◌};
ghost use Rattle.usercodec.specs.Changes.{casemapping_byte, casemapping_from};

use rfccase::Casemapping;

pub(crate) fn byte_of_casemapping(mapping: Casemapping) -> u8
    ensures { result ≡ casemapping_byte mapping }
{
    match mapping {
        Casemapping::Ascii => 0,
        Casemapping::StrictRfc1459 => 1,
        Casemapping::Rfc1459 => 2,
    }
}

// The casemapping of `byte`, or `None` if it is not from 0 to 2.
#[tactic(auto, unfolding(crate::specs::Changes::casemapping_from))]
pub(crate) fn casemapping_of_byte(byte: u8) -> Option<Casemapping>
    ensures { result ≡ casemapping_from byte }
{
    match byte {
        0 => Some(Casemapping::Ascii),
        1 => Some(Casemapping::StrictRfc1459),
        2 => Some(Casemapping::Rfc1459),
        _ => None,
    }
}

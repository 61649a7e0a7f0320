// Whether a code is the right one.
ghost use Rattle.std.specs.Prelude.{◌≡◌};
ghost use Rattle.std.specs.Str.{bytes_eq};

/// Whether `code` and `other` are the same. Compares every digit, wherever they differ, so the time reveals nothing
/// about the right code.
#[tactic(auto, using(sealing::proofs::TagLemmas::one_more_byte))]
pub fn is_same_code(code: &[u8; 64], other: &[u8; 64]) -> bool
    ensures { result ≡ bytes_eq code.now other.now }
{
    let mut differing: u32 = 0;
    for (i, digit) in code.iter().enumerate() {
        differing += u32::from(*digit != other[i]);
    }
    differing == 0
}

// The byte that says why the userfile refused a change: the number of the refusal's U code.
ghost use Rattle.std.specs.Prelude.{◌≡◌};
ghost use Rattle.usercodec.specs.FaultBytes.{fault_byte, fault_from};

use userfile::ChangeFault;

/// Returns the byte for the refusal `fault`: the number of its code, 1 for U1 to 12 for U12.
pub fn byte_of_fault(fault: ChangeFault) -> u8
    ensures { result ≡ fault_byte fault }
{
    match fault {
        ChangeFault::BadHandle => 1,
        ChangeFault::UserExists => 2,
        ChangeFault::NoSuchUser => 3,
        ChangeFault::BadMask => 4,
        ChangeFault::MaskExists => 5,
        ChangeFault::NoSuchMask => 6,
        ChangeFault::BadChannel => 7,
        ChangeFault::BanExists => 8,
        ChangeFault::NoSuchBan => 9,
        ChangeFault::BadComment => 10,
        ChangeFault::Full => 11,
        ChangeFault::NotAllowed => 12,
    }
}

/// Returns the fault that `byte` stands for, or `None` if it is not from 1 to 12.
#[tactic(auto, unfolding(crate::specs::FaultBytes::fault_from))]
pub fn fault_of_byte(byte: u8) -> Option<ChangeFault>
    ensures { result ≡ fault_from byte }
{
    match byte {
        1 => Some(ChangeFault::BadHandle),
        2 => Some(ChangeFault::UserExists),
        3 => Some(ChangeFault::NoSuchUser),
        4 => Some(ChangeFault::BadMask),
        5 => Some(ChangeFault::MaskExists),
        6 => Some(ChangeFault::NoSuchMask),
        7 => Some(ChangeFault::BadChannel),
        8 => Some(ChangeFault::BanExists),
        9 => Some(ChangeFault::NoSuchBan),
        10 => Some(ChangeFault::BadComment),
        11 => Some(ChangeFault::Full),
        12 => Some(ChangeFault::NotAllowed),
        _ => None,
    }
}

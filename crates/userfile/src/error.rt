// Why a change is not made.
ghost use Rattle.std.specs.Prelude.{◌≡◌};

use bytetext::Failure;
use thiserror::Error;

/// A refusal of a change, with its letter and number. The refusals are tested in this order: the change's own shape,
/// then the right of the person who asks, then what the userfile holds, then its limits.
#[derive(Clone, Copy, Debug, PartialEq, Eq, Error)]
pub enum ChangeFault {
    /// U1: the handle, or a ban's creator, does not have 1 to 32 bytes, or holds a byte outside 33 to 126 or one of
    /// `* , : @`.
    #[error("a handle has 1 to 32 printable bytes, none of them a space or one of * , : @")]
    BadHandle,
    /// U4: the mask is not a hostmask, or the person who asks is not written as `nick!user@host`.
    #[error("write the mask as nick!user@host or $a:account, with at most 120 bytes, each above 32")]
    BadMask,
    /// U7: the channel name does not begin with `&`, `#`, `+` or `!`, has more than 100 bytes, or holds a space, a
    /// comma or control G.
    #[error("a channel begins with & # + or !, and has at most 100 bytes without spaces and commas")]
    BadChannel,
    /// U10: the comment has more than 100 bytes or the info text more than 80, or it holds NUL, CR or LF.
    #[error("a comment has at most 100 bytes, an info text at most 80, and each is one line")]
    BadComment,
    /// U3: no user has the handle.
    #[error("no user has this handle: add the user first")]
    NoSuchUser,
    /// U2: a user has the handle.
    #[error("a user has this handle: pick another")]
    UserExists,
    /// U5: the user has the mask.
    #[error("the user has this mask")]
    MaskExists,
    /// U6: the user has no such mask.
    #[error("the user has no such mask")]
    NoSuchMask,
    /// U8: a ban of this channel and mask exists.
    #[error("there is such a ban: delete it first")]
    BanExists,
    /// U9: no ban of this channel and mask exists.
    #[error("there is no such ban")]
    NoSuchBan,
    /// U11: a limit leaves no room for one more.
    #[error("there is no place for one more: delete one first")]
    Full,
    /// U12: the person who asks has no right to the edit, by the records just before it.
    #[error("you have no right to this change: ask an owner or a master to make it")]
    NotAllowed,
}

impl ChangeFault {
    ghost use Rattle.std.specs.Prelude.{◌≡◌};
    ghost use Rattle.userfile.specs.Codes.{fault_code};

    /// Returns the letter and number that transcripts print.
    pub fn code(self) -> &'static str
        ensures { result.now ≡ fault_code self }
    {
        match self {
            ChangeFault::BadHandle => "U1",
            ChangeFault::BadMask => "U4",
            ChangeFault::BadChannel => "U7",
            ChangeFault::BadComment => "U10",
            ChangeFault::NoSuchUser => "U3",
            ChangeFault::UserExists => "U2",
            ChangeFault::MaskExists => "U5",
            ChangeFault::NoSuchMask => "U6",
            ChangeFault::BanExists => "U8",
            ChangeFault::NoSuchBan => "U9",
            ChangeFault::Full => "U11",
            ChangeFault::NotAllowed => "U12",
        }
    }
}

/// Why a userfile stayed as it was: `Refused` with the first fault that applies, and `NoMemory` if no fault applies and
/// an allocation failed. A refused change is refused again as long as the userfile stays the same.
pub type ChangeError = Failure<ChangeFault>;

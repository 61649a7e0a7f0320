// What the NOTICEs say of changes that are refused, and which hostmask an edit adds.
ghost use Rattle.std.specs.Prelude.{◌≡◌, IfOk};
ghost use Rattle.eggprocs.specs.Outcomes.{mask_added, refusal_text, refusal_words};

use bytetext::{NoMemory, Text};
use std::alloc::Global;
use userfile::{ChangeFault, Edit};

// Why the userfile refuses a change, and the refusal's code.
pub(crate) fn refusal_text(alloc: Global, fault: ChangeFault) -> Result<Text, NoMemory>
    ensures { IfOk result (λ text. text ≡ refusal_text fault) }
{
    let mut text = Vec::from_slice(alloc, refusal_words(fault))?;
    text.extend_from_slice(b" (")?;
    text.extend_from_slice(fault.code().as_bytes())?;
    text.extend_from_slice(b")")?;
    Ok(Text::new(text))
}

fn refusal_words(fault: ChangeFault) -> &'static [u8]
    ensures { result.now ≡ refusal_words fault }
{
    match fault {
        ChangeFault::BadHandle => b"a handle has 1 to 32 bytes, without spaces and * , : @",
        ChangeFault::UserExists => b"there is such a user already",
        ChangeFault::NoSuchUser => b"there is no such user",
        ChangeFault::BadMask => b"a mask is nick!user@host, of at most 120 bytes",
        ChangeFault::MaskExists => b"the user has this mask already",
        ChangeFault::NoSuchMask => b"the user has no such mask",
        ChangeFault::BadChannel => b"a channel begins with & # + or !, and has at most 100 bytes",
        ChangeFault::BanExists => b"there is such a ban already",
        ChangeFault::NoSuchBan => b"there is no such ban",
        ChangeFault::BadComment => b"a comment has at most 100 bytes, an info line at most 80",
        ChangeFault::Full => b"there is no room for one more",
        ChangeFault::NotAllowed => {
            b"only an owner may make or change an owner or a master, and the last owner stays"
        }
    }
}

// The hostmask that an edit adds to a user, or the empty text if it adds none.
pub(crate) fn mask_added(edit: &Edit) -> &[u8]
    ensures { result.now ≡ mask_added edit.now }
{
    match edit {
        Edit::AddHost { handle: _, mask } => mask.as_bytes(),
        Edit::AddUser { .. }
        | Edit::DelUser { .. }
        | Edit::DelHost { .. }
        | Edit::SetGlobal { .. }
        | Edit::SetChan { .. }
        | Edit::SetBot { .. }
        | Edit::AddBan { .. }
        | Edit::DelBan { .. }
        | Edit::SetInfo { .. }
        | Edit::SetSticky { .. } => b"",
    }
}

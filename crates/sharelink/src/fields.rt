// What the types of records say of their fields: masks are hostmasks, flags are letters, a moment has eight bytes.
// These calls change nothing; the code that writes records makes them for their clauses.
ghost use Rattle.std.specs.Prelude.{◌≡◌, ◌^◌, true, nat_lt, None};
ghost use Rattle.std.specs.List.{AllByRecursion, list_all};
ghost use Rattle.userfile.specs.Shapes.{is_hostmask};
ghost use Rattle.usercodec.specs.declared.records.Record.TheVariants.{User as a_user, Ban as a_ban};
ghost use Rattle.userfile.specs.Apply.{bad_shape};
ghost use Rattle.usercodec.specs.Changes.{HasRoom, IsGoodChange};
ghost use Rattle.usercodec.specs.Records.{HasFields};

use usercodec::Record;
use userfile::{Ban, Change, ChannelFlags, Edit, Hostmask, User};

pub(crate) fn know_records(items: &[Record])
    ensures { AllByRecursion HasFields items.now }
{
    match items {
        [] => {}
        [item, rest @ ..] => {
            know_record(item);
            know_records(rest);
        }
    }
}

fn know_record(item: &Record)
    ensures { HasFields item.now }
{
    match item {
        Record::User(user) => know_user(user),
        Record::Ban(ban) => know_ban(ban),
    }
}

fn know_user(user: &User)
    ensures { HasFields (a_user user.now) }
{
    know_masks(user.masks.as_slice());
    let _ = user.global.bits();
    know_entries(user.channels.as_slice());
    let _ = user.bot.bits();
}

fn know_ban(ban: &Ban)
    ensures { HasFields (a_ban ban.now) }
{
    let _ = ban.mask.as_bytes();
    let _expires = ban.expires;
}

fn know_masks(masks: &[Hostmask])
    ensures { list_all is_hostmask masks.now ≡ true }
{
    match masks {
        [] => {}
        [mask, rest @ ..] => {
            let _ = mask.as_bytes();
            know_masks(rest);
        }
    }
}

fn know_entries(entries: &[ChannelFlags])
    ensures { list_all (λ entry. nat_lt entry.flags (2 ^ 52)) entries.now ≡ true }
{
    match entries {
        [] => {}
        [entry, rest @ ..] => {
            let _ = entry.flags.bits();
            know_entries(rest);
        }
    }
}

/// States that `change`, which has a good shape, has a spelling. It does nothing at run time.
pub fn know_change(change: &Change)
    requires { bad_shape change.now ≡ None }
    ensures { IsGoodChange change.now }
{
    know_edit(&change.edit);
}

fn know_edit(edit: &Edit)
    ensures { HasRoom edit.now }
{
    match edit {
        Edit::AddUser { .. }
        | Edit::DelUser { .. }
        | Edit::AddHost { .. }
        | Edit::DelHost { .. }
        | Edit::DelBan { .. }
        | Edit::SetInfo { .. }
        | Edit::SetSticky { .. } => {}
        Edit::SetGlobal { flags, .. } | Edit::SetChan { flags, .. } | Edit::SetBot { flags, .. } =>
            {
                let _ = flags.bits();
            }
        Edit::AddBan { expires, .. } => {
            let _expires = *expires;
        }
    }
}

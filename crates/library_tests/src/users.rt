// Users, bans and changes: `userfile`.
use bytetext::{Text, TryCopy};
use flagexpr::Flags;
use rfccase::Casemapping;
use std::alloc::Global;
use userfile::{
    Ban, Change, ChangeError, ChannelEntries, ChannelFlags, Edit, Hostmask, Hostmasks, User,
    Userfile, are_bans, are_users, expires_at,
};

fn letters(text: &[u8]) -> Flags {
    Flags::parse(text).unwrap_or(Flags::empty())
}

// Makes these hostmasks, or returns `None` if one can't be made.
fn masks_of(alloc: Global, texts: &[&[u8]]) -> Option<Hostmasks> {
    let mut masks = Vec::new(alloc);
    for text in texts {
        masks.push(Hostmask::new(alloc, text).ok()?).ok()?;
    }
    Some(Hostmasks::new(masks))
}

// Makes the flags v on `channel`.
fn voiced_on(alloc: Global, channel: &[u8]) -> Option<ChannelEntries> {
    let mut entries = Vec::new(alloc);
    let entry = ChannelFlags {
        channel: Text::from_slice(alloc, channel).ok()?,
        flags: letters(b"v"),
    };
    entries.push(entry).ok()?;
    Some(ChannelEntries::new(entries))
}

// Makes a user of this `handle` with these `masks`, and something in each other field.
fn user_of(alloc: Global, handle: &[u8], masks: &[&[u8]]) -> Option<User> {
    told_user(alloc, handle, masks, b"likes  tea")
}

// Makes the same user, with this `info` text.
fn told_user(alloc: Global, handle: &[u8], masks: &[&[u8]], info: &[u8]) -> Option<User> {
    match (
        Text::from_slice(alloc, handle),
        masks_of(alloc, masks),
        voiced_on(alloc, b"#Egg"),
        Text::from_slice(alloc, info),
    ) {
        (Ok(handle), Some(masks), Some(channels), Ok(info)) => Some(User {
            handle,
            masks,
            global: letters(b"aoZ"),
            channels,
            bot: letters(b"s"),
            info,
        }),
        (_, _, _, _) => None,
    }
}

// Makes a sticky ban of `mask` on #egg, until second 7.
fn ban_of(alloc: Global, mask: &[u8]) -> Option<Ban> {
    match (
        Text::from_slice(alloc, b"#egg"),
        Hostmask::new(alloc, mask),
        Text::from_slice(alloc, b"bob"),
        Text::from_slice(alloc, b"go  away"),
    ) {
        (Ok(channel), Ok(mask), Ok(creator), Ok(comment)) => Some(Ban {
            channel,
            mask,
            creator,
            expires: 7,
            comment,
            sticky: true,
        }),
        (_, _, _, _) => None,
    }
}

fn one<T: Drop>(alloc: Global, item: Option<T>) -> Option<Vec<T>> {
    let mut items = Vec::new(alloc);
    items.push(item?).ok()?;
    Some(items)
}

fn two<T: Drop>(alloc: Global, first: Option<T>, second: Option<T>) -> Option<Vec<T>> {
    let mut items = one(alloc, first)?;
    items.push(second?).ok()?;
    Some(items)
}

const ALICES: [&[u8]; 2] = [b"*!*@A.net", b"al?!*@*"];

// Returns whether `user` is the user Alice, with all that was given.
fn is_alice(user: &User) -> bool {
    user.handle.is_same(b"Alice")
        && matches!(user.masks.as_slice(), [a, b] if a.as_bytes() == ALICES[0] && b.as_bytes() == ALICES[1])
        && matches!(user.channels.as_slice(), [entry] if entry.channel.is_same(b"#Egg") && entry.flags == letters(b"v"))
        && user.global == letters(b"Zoa")
        && user.bot == letters(b"s")
        && user.info.is_same(b"likes  tea")
}

// Returns whether `ban` is the ban, with all that was given.
fn is_the_ban(ban: &Ban) -> bool {
    ban.channel.is_same(b"#egg")
        && ban.mask.as_bytes() == b"*!*@bad.net".as_slice()
        && ban.creator.is_same(b"bob")
        && ban.expires == 7
        && ban.comment.is_same(b"go  away")
        && ban.sticky
}

// Returns whether the userfile holds Alice and the ban, and answers for them.
fn is_full(userfile: &Userfile) -> bool {
    (userfile.user_count(), userfile.ban_count()) == (1, 1)
        && userfile.user_at(0).is_some_and(is_alice)
        && userfile.user(b"aLICE").is_some_and(is_alice)
        && userfile.ban_at(0).is_some_and(is_the_ban)
        && userfile.user_at(1).is_none()
        && userfile.ban_at(1).is_none()
        && userfile.handle_of(Casemapping::Rfc1459, b"x!y@a.NET") == b"Alice".as_slice()
        && userfile.flags_of(b"alice", b"#EGG").chan == letters(b"v")
        && userfile.info_of(b"aLICE") == b"likes  tea".as_slice()
        && userfile
            .ban_for(Casemapping::Rfc1459, b"#Egg", b"x!y@bad.net", 6)
            .is_some_and(is_the_ban)
}

// One byte more than an info text may have.
pub(crate) const EIGHTY_ONE: [u8; 81] = [b'x'; 81];

// Makes a userfile of just these `users` and `bans`, or returns the code of the refusal.
fn gathered(
    alloc: Global,
    users: Option<Vec<User>>,
    bans: Option<Vec<Ban>>,
) -> Result<Userfile, &'static str> {
    let (Some(users), Some(bans)) = (users, bans) else {
        return Err("not made");
    };
    if !are_users(&users) || !are_bans(&bans) {
        return Err("unfit");
    }
    match Userfile::from_records(alloc, users, bans) {
        Ok(userfile) => Ok(userfile),
        Err(ChangeError::Refused(fault)) => Err(fault.code()),
        Err(ChangeError::NoMemory) => Err("memory"),
    }
}

// Returns whether a userfile with every field in it is what was given, and its copy too.
fn a_full_userfile_is_gathered_and_copied(alloc: Global) -> bool {
    let users = one(alloc, user_of(alloc, b"Alice", &ALICES));
    let bans = one(alloc, ban_of(alloc, b"*!*@bad.net"));
    match gathered(alloc, users, bans) {
        Ok(userfile) => {
            is_full(&userfile) && userfile.copy(alloc).is_ok_and(|twin| is_full(&twin))
        }
        Err(_) => false,
    }
}

#[test]
fn a_full_userfile_and_its_copy_hold_all_that_was_given(rt: HostRuntime) {
    assert!(rt; a_full_userfile_is_gathered_and_copied(rt.alloc()));
}

// Returns the code with which these `users` are refused.
fn refusal(alloc: Global, users: Option<Vec<User>>) -> &'static str {
    match gathered(alloc, users, Some(Vec::new(alloc))) {
        Ok(_) => "ok",
        Err(code) => code,
    }
}

// Returns the code with which bans of these two masks are refused.
fn ban_refusal(alloc: Global, first: &[u8], second: &[u8]) -> &'static str {
    let bans = two(alloc, ban_of(alloc, first), ban_of(alloc, second));
    match gathered(alloc, Some(Vec::new(alloc)), bans) {
        Ok(_) => "ok",
        Err(code) => code,
    }
}

const SEVENTEEN: [&[u8]; 17] = [
    b"a!*@*", b"b!*@*", b"c!*@*", b"d!*@*", b"e!*@*", b"f!*@*", b"g!*@*", b"h!*@*", b"i!*@*",
    b"j!*@*", b"k!*@*", b"l!*@*", b"m!*@*", b"n!*@*", b"o!*@*", b"p!*@*", b"q!*@*",
];

// Makes two users of these handles, each with the same mask.
fn pair(alloc: Global, first: &[u8], second: &[u8]) -> Option<Vec<User>> {
    two(
        alloc,
        user_of(alloc, first, &[b"*!*@a.net"]),
        user_of(alloc, second, &[b"*!*@a.net"]),
    )
}

fn single(alloc: Global, masks: &[&[u8]]) -> Option<Vec<User>> {
    one(alloc, user_of(alloc, b"alice", masks))
}

#[test]
fn records_that_do_not_stand_together_are_refused(rt: HostRuntime) {
    let alloc = rt.alloc();
    assert!(rt; refusal(alloc, pair(alloc, b"alice", b"bob")) == "ok");
    assert!(rt; refusal(alloc, pair(alloc, b"alice", b"ALICE")) == "U2");
    assert!(rt; refusal(alloc, single(alloc, &[b"*!*@a.net", b"*!*@A.NET"])) == "U5");
    assert!(rt; refusal(alloc, single(alloc, &SEVENTEEN[1..])) == "ok");
    assert!(rt; refusal(alloc, single(alloc, &SEVENTEEN)) == "U11");
    assert!(rt;
        refusal(
            alloc,
            one(alloc, told_user(alloc, b"al", &ALICES, &EIGHTY_ONE[1..]))
        ) == "ok"
    );
    assert!(rt;
        refusal(
            alloc,
            one(alloc, told_user(alloc, b"al", &ALICES, &EIGHTY_ONE))
        ) == "unfit"
    );
    assert!(rt;
        refusal(
            alloc,
            one(alloc, told_user(alloc, b"al", &ALICES, b"two\nlines"))
        ) == "unfit"
    );
    assert!(rt; ban_refusal(alloc, b"*!*@a.net", b"*!*@b.net") == "ok");
    assert!(rt; ban_refusal(alloc, b"*!*@a.net", b"*!*@A.net") == "U8");
}

// Applies `change` to `userfile`, and returns the answer.
pub(crate) fn answer(
    alloc: Global,
    userfile: &mut Userfile,
    change: Option<Change>,
) -> &'static str {
    let Some(change) = change else {
        return "not made";
    };
    match userfile.apply(alloc, &change) {
        Ok(()) => "ok",
        Err(ChangeError::Refused(fault)) => fault.code(),
        Err(ChangeError::NoMemory) => "memory",
    }
}

// Applies `change` to an empty userfile, and returns the answer.
fn answer_to(alloc: Global, change: Option<Change>) -> &'static str {
    answer(alloc, &mut Userfile::new(alloc), change)
}

pub(crate) fn adding(alloc: Global, handle: &[u8]) -> Option<Change> {
    let handle = Text::from_slice(alloc, handle).ok()?;
    Some(Change::by_nobody(Edit::AddUser { handle }))
}

fn giving(alloc: Global, mask: &[u8]) -> Option<Change> {
    match (
        Text::from_slice(alloc, b"al"),
        Text::from_slice(alloc, mask),
    ) {
        (Ok(handle), Ok(mask)) => Some(Change::by_nobody(Edit::AddHost { handle, mask })),
        (_, _) => None,
    }
}

#[test]
fn texts_that_no_script_can_spell_are_refused(rt: HostRuntime) {
    let alloc = rt.alloc();
    assert!(rt; answer_to(alloc, adding(alloc, b"al")) == "ok");
    assert!(rt; answer_to(alloc, adding(alloc, b"")) == "U1");
    assert!(rt; answer_to(alloc, adding(alloc, b"a b")) == "U1");
    assert!(rt; answer_to(alloc, giving(alloc, b"")) == "U4");
    assert!(rt; answer_to(alloc, giving(alloc, b"a b!*@*")) == "U4");
}

// Returns whether the copy of a change is that change.
fn a_change_is_copied(alloc: Global) -> bool {
    let twin = giving(alloc, b"*!*@a.net").map(|change| change.copy(alloc));
    match &twin {
        Some(
            Ok(
                Change {
                    by: None,
                    edit: Edit::AddHost { handle, mask },
                },
            ),
        ) => { handle.is_same(b"al") && mask.is_same(b"*!*@a.net") }
        _ => false,
    }
}

// Returns whether lists give back what they were made of.
fn lists_give_back_their_vec(alloc: Global) -> bool {
    let (Some(masks), Some(entries)) = (masks_of(alloc, &ALICES), voiced_on(alloc, b"#a")) else {
        return false;
    };
    let counts = (masks.len(), entries.len());
    let flagged = entries
        .get(b"#A")
        .is_some_and(|entry| entry.flags.has(b'v'));
    flagged
        && masks.has(b"*!*@a.NET")
        && counts == (masks.into_vec().len(), entries.into_vec().len())
        && counts == (2, 1)
}

#[test]
fn changes_and_lists_are_what_they_were_made_of(rt: HostRuntime) {
    assert!(rt; a_change_is_copied(rt.alloc()));
    assert!(rt; lists_give_back_their_vec(rt.alloc()));
}

#[test]
fn an_hour_has_3600_seconds(rt: HostRuntime) {
    assert!(rt; expires_at(100, 60) == 3700);
    assert!(rt; expires_at(100, 0) == 0);
}

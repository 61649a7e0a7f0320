// Info texts and sticky bans: `userfile`.
use crate::users::{EIGHTY_ONE, adding, answer};
use bytetext::Text;
use rfccase::Casemapping;
use std::alloc::Global;
use userfile::{Change, Edit, Userfile};

// Makes the change that sets the info text of the user `handle`.
fn telling(alloc: Global, handle: &[u8], info: &[u8]) -> Option<Change> {
    match (
        Text::from_slice(alloc, handle),
        Text::from_slice(alloc, info),
    ) {
        (Ok(handle), Ok(info)) => Some(Change::by_nobody(Edit::SetInfo { handle, info })),
        (_, _) => None,
    }
}

#[test]
fn an_info_text_is_refused_for_the_first_reason(rt: HostRuntime) {
    let alloc = rt.alloc();
    let mut people = Userfile::new(alloc);
    assert!(rt; answer(alloc, &mut people, adding(alloc, b"alice")) == "ok");
    assert!(rt; answer(alloc, &mut people, telling(alloc, b"a b", &EIGHTY_ONE)) == "U1");
    assert!(rt; answer(alloc, &mut people, telling(alloc, b"bob", &EIGHTY_ONE)) == "U10");
    assert!(rt; answer(alloc, &mut people, telling(alloc, b"alice", b"likes\rtea")) == "U10");
    assert!(rt; answer(alloc, &mut people, telling(alloc, b"bob", b"likes tea")) == "U3");
    assert!(rt; people.info_of(b"alice") == b"".as_slice());
}

#[test]
fn an_info_text_is_set_and_emptied(rt: HostRuntime) {
    let alloc = rt.alloc();
    let mut people = Userfile::new(alloc);
    assert!(rt; answer(alloc, &mut people, adding(alloc, b"alice")) == "ok");
    assert!(rt;
        answer(
            alloc,
            &mut people,
            telling(alloc, b"Alice", &EIGHTY_ONE[1..])
        ) == "ok"
    );
    assert!(rt; people.info_of(b"ALICE") == &EIGHTY_ONE[1..]);
    assert!(rt; people.info_of(b"bob") == b"".as_slice());
    assert!(rt; answer(alloc, &mut people, telling(alloc, b"alice", b"")) == "ok");
    assert!(rt; people.info_of(b"alice") == b"".as_slice());
}

// Makes the change that adds a ban of this `channel` and `mask` until the second `expires`.
fn banning(alloc: Global, channel: &[u8], mask: &[u8], expires: u64) -> Option<Change> {
    match (
        Text::from_slice(alloc, channel),
        Text::from_slice(alloc, mask),
        Text::from_slice(alloc, b"bob"),
        Text::from_slice(alloc, b"go"),
    ) {
        (Ok(channel), Ok(mask), Ok(creator), Ok(comment)) => Some(Change::by_nobody(
            Edit::AddBan {
                channel,
                mask,
                creator,
                expires,
                comment,
            },
        )),
        (_, _, _, _) => None,
    }
}

// Makes the change that sets or clears the mark of the ban of this `channel` and `mask`.
fn marking(alloc: Global, channel: &[u8], mask: &[u8], on: bool) -> Option<Change> {
    match (
        Text::from_slice(alloc, channel),
        Text::from_slice(alloc, mask),
    ) {
        (Ok(channel), Ok(mask)) => {
            Some(Change::by_nobody(Edit::SetSticky { channel, mask, on }))
        }
        (_, _) => None,
    }
}

// Makes three bans, in this order: one of #a until second 7, one of all channels, and one of #b. Casemapping makes the
// masks of the first two the same. Those two are sticky if all is well.
fn three_bans(alloc: Global) -> Userfile {
    let mut bans = Userfile::new(alloc);
    let _ = answer(alloc, &mut bans, banning(alloc, b"#a", b"*!*@bad[1]", 7));
    let _ = answer(alloc, &mut bans, banning(alloc, b"", b"*!*@BAD{1}", 0));
    let _ = answer(alloc, &mut bans, banning(alloc, b"#b", b"x!*@*", 0));
    let _ = answer(alloc, &mut bans, marking(alloc, b"#A", b"*!*@bad[1]", true));
    let _ = answer(alloc, &mut bans, marking(alloc, b"", b"*!*@bad[1]", true));
    bans
}

// Returns the mask of the ban that comes back, or the empty text if none does.
fn back<'a>(bans: &'a Userfile, channel: &[u8], mask: &[u8], now: u64) -> &'a [u8] {
    match bans.sticky_ban(Casemapping::Rfc1459, channel, mask, now) {
        Some(ban) => ban.mask.as_bytes(),
        None => b"",
    }
}

#[test]
fn a_mark_is_refused_for_the_first_reason(rt: HostRuntime) {
    let alloc = rt.alloc();
    let mut bans = three_bans(alloc);
    assert!(rt; answer(alloc, &mut bans, marking(alloc, b"b", b"x", true)) == "U4");
    assert!(rt; answer(alloc, &mut bans, marking(alloc, b"b", b"x!*@*", true)) == "U7");
    assert!(rt; answer(alloc, &mut bans, marking(alloc, b"#a", b"x!*@*", true)) == "U9");
}

#[test]
fn the_first_ban_that_is_sticky_comes_back(rt: HostRuntime) {
    let alloc = rt.alloc();
    let bans = three_bans(alloc);
    assert!(rt; back(&bans, b"#A", b"*!*@Bad{1]", 6) == b"*!*@bad[1]".as_slice());
    assert!(rt; back(&bans, b"#A", b"*!*@Bad{1]", 7) == b"*!*@BAD{1}".as_slice());
    assert!(rt; back(&bans, b"#c", b"*!*@bad[1]", 6) == b"*!*@BAD{1}".as_slice());
    assert!(rt; back(&bans, b"#a", b"*!*@bad[*]", 6) == b"".as_slice());
    assert!(rt; back(&bans, b"#b", b"x!*@*", 6) == b"".as_slice());
}

#[test]
fn a_mark_is_set_and_taken_away(rt: HostRuntime) {
    let alloc = rt.alloc();
    let mut bans = three_bans(alloc);
    assert!(rt; answer(alloc, &mut bans, marking(alloc, b"#B", b"X!*@*", true)) == "ok");
    assert!(rt; back(&bans, b"#b", b"x!*@*", 6) == b"x!*@*".as_slice());
    assert!(rt; back(&bans, b"#a", b"x!*@*", 6) == b"".as_slice());
    assert!(rt; answer(alloc, &mut bans, marking(alloc, b"#b", b"x!*@*", false)) == "ok");
    assert!(rt; back(&bans, b"#b", b"x!*@*", 6) == b"".as_slice());
    assert!(rt; back(&bans, b"#a", b"*!*@bad[1]", 6) == b"*!*@bad[1]".as_slice());
}

// The page of the records.
use crate::forms::Value;
use crate::layout::{MAX_ROWS, put_end, put_top, put_turns};
use crate::person::person_of;
use crate::request::PagePath;
use crate::sheet::Sheet;
use crate::view::PageView;
use bytetext::Text;
use rfccase::Casemapping;
use userfile::{Ban, ChannelFlags, Hostmask, User, Userfile};

// A page begins no further row once it has this many bytes.
const FULL: usize = 262_144;

// Appends the page of the records from place `from` on: the users come first, and then the bans. It says who the person
// `who` would be, if one is named.
pub(crate) fn put_records_page(
    sheet: &mut Sheet,
    view: &PageView<'_>,
    from: usize,
    who: &Option<Text>,
) {
    put_top(sheet, view.own, view.links.place, PagePath::Records);
    match who {
        Some(who) => put_search(sheet, view.mapping, view.userfile, who.as_bytes()),
        None => sheet.put_form(SEARCH, &[Value::Text(b"")]),
    }
    let next = put_records(sheet, view.userfile, from);
    put_turns(sheet, PagePath::Records, from as u64, next);
    put_end(sheet, view.now);
}

// The form of the search, with the person that was searched for.
const SEARCH: &[u8] = b"<form action=\"/records\" method=\"get\" role=\"search\">\n\
<label for=\"who\">Who would this be? nick!user@host</label>\n\
<input id=\"who\" name=\"who\" autocomplete=\"off\" autocapitalize=\"off\" spellcheck=\"false\" value=\"$\">\n\
<button>Search</button>\n</form>\n";

// The form of the search, and its answer: who the person would be, and by which hostmask.
fn put_search(sheet: &mut Sheet, mapping: Casemapping, userfile: &Userfile, who: &[u8]) {
    sheet.put_form(SEARCH, &[Value::Text(who)]);
    match person_of(mapping, userfile, who) {
        Some(known) => sheet.put_form(
            b"<p class=\"found\" role=\"status\"><strong>$</strong> would be <strong>$</strong> by the hostmask <code>$</code>.</p>\n",
            &[
                Value::Text(who),
                Value::Text(known.user.handle.as_bytes()),
                Value::Text(known.mask.as_bytes()),
            ],
        ),
        None => sheet.put_form(
            b"<p class=\"found\" role=\"status\"><strong>$</strong> would be nobody: no hostmask matches.</p>\n",
            &[Value::Text(who)],
        ),
    }
}

// The records from place `from` on, and the place of the first one after them, if there is one.
fn put_records(sheet: &mut Sheet, userfile: &Userfile, from: usize) -> Option<u64> {
    let users = userfile.user_count();
    let end = users.saturating_add(userfile.ban_count());
    let place = put_users(sheet, userfile, from);
    let shown = place.saturating_sub(from);
    let place = if place >= users && shown < MAX_ROWS {
        put_bans(sheet, userfile, place, MAX_ROWS - shown)
    } else {
        place
    };
    if place < end {
        Some(place as u64)
    } else {
        None
    }
}

// The users from place `from` on. Returns the place after them.
fn put_users(sheet: &mut Sheet, userfile: &Userfile, from: usize) -> usize {
    if from >= userfile.user_count() {
        return from;
    }
    sheet.put(
        b"<h2>Users</h2>\n<table>\n<thead><tr><th scope=\"col\">Handle</th><th scope=\"col\">Flags</th><th scope=\"col\">As a bot</th>\
<th scope=\"col\">Hostmasks</th><th scope=\"col\">On channels</th><th scope=\"col\">Info</th></tr></thead>\n<tbody>\n",
    );
    let mut place = from;
    for _row in 0..MAX_ROWS {
        let Some(user) = userfile.user_at(place) else {
            break;
        };
        if sheet.len() > FULL {
            break;
        }
        put_user(sheet, user);
        place = place.saturating_add(1);
    }
    sheet.put(b"</tbody>\n</table>\n");
    place
}

fn put_user(sheet: &mut Sheet, user: &User) {
    sheet.put_form(
        b"<tr><th scope=\"row\">$</th><td data-label=\"Flags\">$</td><td data-label=\"As a bot\">$</td>",
        &[
            Value::Text(user.handle.as_bytes()),
            Value::Letters(user.global),
            Value::Letters(user.bot),
        ],
    );
    put_masks(sheet, user.masks.as_slice());
    put_entries(sheet, user.channels.as_slice());
    sheet.put_form(
        b"<td data-label=\"Info\">$</td></tr>\n",
        &[Value::Text(user.info.as_bytes())],
    );
}

// A cell of hostmasks, each on a line of its own.
fn put_masks(sheet: &mut Sheet, masks: &[Hostmask]) {
    sheet.put(b"<td data-label=\"Hostmasks\">");
    for mask in masks {
        sheet.put_form(b"$<br>", &[Value::Text(mask.as_bytes())]);
    }
    sheet.put(b"</td>");
}

// A cell of the flags on channels, each on a line of its own.
fn put_entries(sheet: &mut Sheet, entries: &[ChannelFlags]) {
    sheet.put(b"<td data-label=\"On channels\">");
    for entry in entries {
        sheet.put_form(
            b"$ $<br>",
            &[
                Value::Text(entry.channel.as_bytes()),
                Value::Letters(entry.flags),
            ],
        );
    }
    sheet.put(b"</td>");
}

// At most `most` bans from place `from` on, where the first ban's place is the number of users. Returns the place after
// them.
fn put_bans(sheet: &mut Sheet, userfile: &Userfile, from: usize, most: usize) -> usize {
    let users = userfile.user_count();
    if from < users || from - users >= userfile.ban_count() {
        return from;
    }
    sheet.put(
        b"<h2>Bans</h2>\n<table>\n<thead><tr><th scope=\"col\">Hostmask</th><th scope=\"col\">Channel</th><th scope=\"col\">By</th>\
<th scope=\"col\">Until</th><th scope=\"col\">Sticky</th><th scope=\"col\">Comment</th></tr></thead>\n<tbody>\n",
    );
    let mut place = from;
    for _row in 0..most {
        let Some(ban) = userfile.ban_at(place.saturating_sub(users)) else {
            break;
        };
        if sheet.len() > FULL {
            break;
        }
        put_ban(sheet, ban);
        place = place.saturating_add(1);
    }
    sheet.put(b"</tbody>\n</table>\n");
    place
}

fn put_ban(sheet: &mut Sheet, ban: &Ban) {
    sheet.put_form(
        BAN,
        &[
            Value::Text(ban.mask.as_bytes()),
            Value::Text(channel_of(ban.channel.as_bytes())),
            Value::Text(ban.creator.as_bytes()),
            end_of(ban.expires),
            Value::Text(sticky_of(ban.sticky)),
            Value::Text(ban.comment.as_bytes()),
        ],
    );
}

const BAN: &[u8] =
    b"<tr><th scope=\"row\">$</th><td data-label=\"Channel\">$</td><td data-label=\"By\">$</td>\
<td data-label=\"Until\">$</td><td data-label=\"Sticky\">$</td><td data-label=\"Comment\">$</td></tr>\n";

// The channel of a ban.
fn channel_of(channel: &[u8]) -> &[u8] {
    if channel.is_empty() { b"all" } else { channel }
}

// Until when a ban holds.
fn end_of(expires: u64) -> Value<'static> {
    if expires == 0 {
        Value::Text(b"ever")
    } else {
        Value::Time(expires)
    }
}

// Whether a ban comes back when somebody removes it.
fn sticky_of(sticky: bool) -> &'static [u8] {
    if sticky { b"yes" } else { b"no" }
}

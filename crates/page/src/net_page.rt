// The page of the net.
use crate::forms::Value;
use crate::layout::{put_end, put_top, put_turns};
use crate::request::PagePath;
use crate::sheet::Sheet;
use crate::view::{ChannelView, LinkView, LinksView, OwnView, PageView, PlaceView, ServerView};
use std::net::SocketAddr;
use userfile::Userfile;

// Appends the page of the net and this bot, with the linked bots from the number `from` on.
pub(crate) fn put_net_page(sheet: &mut Sheet, view: &PageView<'_>, from: u16) {
    put_top(sheet, view.own, view.links.place, PagePath::Net);
    put_own(sheet, view.own, view.userfile);
    put_server(sheet, view.server);
    put_channels(sheet, view.channels);
    put_links(sheet, view.links, from);
    put_end(sheet, view.now);
}

// This bot.
fn put_own(sheet: &mut Sheet, own: OwnView, userfile: &Userfile) {
    sheet.put_form(
        OWN,
        &[
            Value::Number(u64::from(own.version)),
            Value::Number(userfile.user_count() as u64),
            Value::Number(userfile.ban_count() as u64),
            Value::Number(own.asks as u64),
            Value::Number(own.lines as u64),
            Value::Number(own.admins as u64),
        ],
    );
}

const OWN: &[u8] = b"<section>\n<h2>This bot</h2>\n<dl>\n\
<div><dt>Version of its records</dt><dd>$</dd></div>\n\
<div><dt>Users</dt><dd>$</dd></div>\n\
<div><dt>Bans</dt><dd>$</dd></div>\n\
<div><dt>Changes the hub has not answered</dt><dd>$</dd></div>\n\
<div><dt>Own lines that wait</dt><dd>$</dd></div>\n\
<div><dt>Administrators</dt><dd>$</dd></div>\n\
</dl>\n</section>\n";

// Its connection to a server.
fn put_server(sheet: &mut Sheet, server: ServerView<'_>) {
    match server {
        ServerView::Gone { due } => sheet.put_form(GONE, &[Value::Time(due)]),
        ServerView::Here(session) => {
            let (class, state) = if session.is_welcomed {
                (b"good".as_slice(), b"welcomed".as_slice())
            } else {
                (b"bad".as_slice(), b"not welcomed yet".as_slice())
            };
            sheet.put_form(
                SESSION,
                &[
                    Value::Text(class),
                    Value::Text(state),
                    Value::Text(session.host),
                    Value::Number(u64::from(session.port)),
                    Value::Text(session.nick),
                    Value::Time(session.since),
                    Value::Number(session.unsent as u64),
                ],
            );
        }
    }
}

const GONE: &[u8] = b"<section>\n<h2>Its server</h2>\n<dl>\n\
<div><dt>State</dt><dd><strong class=\"bad\">not connected</strong></dd></div>\n\
<div><dt>Next attempt</dt><dd>$</dd></div>\n\
</dl>\n</section>\n";

const SESSION: &[u8] = b"<section>\n<h2>Its server</h2>\n<dl>\n\
<div><dt>State</dt><dd><strong class=\"$\">$</strong></dd></div>\n\
<div><dt>Host</dt><dd>$</dd></div>\n\
<div><dt>Port</dt><dd>$</dd></div>\n\
<div><dt>Nick</dt><dd>$</dd></div>\n\
<div><dt>Since</dt><dd>$</dd></div>\n\
<div><dt>Bytes that wait</dt><dd>$</dd></div>\n\
</dl>\n</section>\n";

// Its channels.
fn put_channels(sheet: &mut Sheet, channels: &[ChannelView<'_>]) {
    if channels.is_empty() {
        return sheet.put(b"<section>\n<h2>Its channels</h2>\n<p>It has none.</p>\n</section>\n");
    }
    sheet.put(
        b"<section>\n<h2>Its channels</h2>\n\
<table>\n<thead><tr><th scope=\"col\">Channel</th><th scope=\"col\">On it</th><th scope=\"col\">Op</th></tr></thead>\n<tbody>\n",
    );
    for channel in channels {
        sheet.put_form(
            b"<tr><th scope=\"row\">$</th><td data-label=\"On it\">$</td><td data-label=\"Op\">$</td></tr>\n",
            &[
                Value::Text(channel.name),
                Value::Answer(channel.is_on),
                Value::Answer(channel.is_op),
            ],
        );
    }
    sheet.put(b"</tbody>\n</table>\n</section>\n");
}

// The other bots.
fn put_links(sheet: &mut Sheet, links: LinksView<'_>, from: u16) {
    let heading = match links.place {
        PlaceView::Alone => return sheet.put(
            b"<section>\n<h2>Other bots</h2>\n<p>This bot is alone.</p>\n</section>\n",
        ),
        PlaceView::Hub => b"Linked leaves".as_slice(),
        PlaceView::Leaf => b"The hub".as_slice(),
    };
    sheet.put_form(
        b"<section>\n<h2>$</h2>\n<p>Linked: $</p>\n",
        &[Value::Text(heading), Value::Number(links.linked as u64)],
    );
    put_rows(sheet, links.rows);
    put_turns(sheet, PagePath::Net, u64::from(from), number_of(links.next));
    sheet.put(b"</section>\n");
}

fn number_of(bot: Option<u16>) -> Option<u64> {
    match bot {
        Some(number) => Some(u64::from(number)),
        None => None,
    }
}

fn put_rows(sheet: &mut Sheet, rows: &[LinkView]) {
    if rows.is_empty() {
        return;
    }
    sheet.put(
        b"<table>\n<thead><tr><th scope=\"col\">Bot</th><th scope=\"col\">Version</th><th scope=\"col\">Lag</th>\
<th scope=\"col\">Waiting</th><th scope=\"col\">Linked since</th><th scope=\"col\">Address</th></tr></thead>\n<tbody>\n",
    );
    for row in rows {
        put_row(sheet, *row);
    }
    sheet.put(b"</tbody>\n</table>\n");
}

fn put_row(sheet: &mut Sheet, row: LinkView) {
    sheet.put_form(
        b"<tr><th scope=\"row\">bot $</th><td data-label=\"Version\">$</td><td data-label=\"Lag\">$</td>\
<td data-label=\"Waiting\">$ bytes</td><td data-label=\"Linked since\">$</td><td data-label=\"Address\">",
        &[
            Value::Number(u64::from(row.number)),
            Value::Number(u64::from(row.version)),
            Value::Lag(row.behind),
            Value::Number(row.unsent as u64),
            Value::Time(row.since),
        ],
    );
    put_address(sheet, row.address);
    sheet.put(b"</td></tr>\n");
}

fn put_address(sheet: &mut Sheet, address: Option<SocketAddr>) {
    match address {
        Some(address) => sheet.put_address(address),
        None => sheet.put(b"tunnel"),
    }
}

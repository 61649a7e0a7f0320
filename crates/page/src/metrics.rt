// Numbers for Prometheus.
use crate::forms::Value;
use crate::sheet::Sheet;
use crate::view::{ChannelView, LinksView, LogView, OwnView, PageView, ServerView};
use userfile::Userfile;

// Appends the numbers of this bot in Prometheus' text form, version 0.0.4. Each may rise and fall.
pub(crate) fn put_metrics(sheet: &mut Sheet, view: &PageView<'_>) {
    put_own(sheet, view.own, view.userfile);
    put_server(sheet, view.server, view.now);
    put_channels(sheet, view.channels);
    put_links(sheet, view.links, view.log);
}

// The numbers of the bot itself, and of its records.
fn put_own(sheet: &mut Sheet, own: OwnView, userfile: &Userfile) {
    sheet.put_form(
        b"# TYPE eggnet_bot_number gauge\neggnet_bot_number $\n\
# TYPE eggnet_leaves gauge\neggnet_leaves $\n\
# TYPE eggnet_records_version gauge\neggnet_records_version $\n\
# TYPE eggnet_unanswered_changes gauge\neggnet_unanswered_changes $\n\
# TYPE eggnet_own_lines gauge\neggnet_own_lines $\n\
# TYPE eggnet_administrators gauge\neggnet_administrators $\n\
# TYPE eggnet_users gauge\neggnet_users $\n\
# TYPE eggnet_bans gauge\neggnet_bans $\n",
        &[
            Value::Number(u64::from(own.number)),
            Value::Number(u64::from(own.leaves)),
            Value::Number(u64::from(own.version)),
            Value::Number(own.asks as u64),
            Value::Number(own.lines as u64),
            Value::Number(own.admins as u64),
            Value::Number(userfile.user_count() as u64),
            Value::Number(userfile.ban_count() as u64),
        ],
    );
}

fn put_server(sheet: &mut Sheet, server: ServerView<'_>, now: u64) {
    match server {
        ServerView::Gone { due: _ } => put_session(sheet, false, 0, 0),
        ServerView::Here(session) => {
            let seconds = now.saturating_sub(session.since);
            put_session(sheet, session.is_welcomed, seconds, session.unsent);
        }
    }
}

fn put_session(sheet: &mut Sheet, is_welcomed: bool, seconds: u64, unsent: usize) {
    sheet.put_form(
        b"# TYPE eggnet_server_welcomed gauge\neggnet_server_welcomed $\n\
# TYPE eggnet_server_seconds gauge\neggnet_server_seconds $\n\
# TYPE eggnet_server_unsent_bytes gauge\neggnet_server_unsent_bytes $\n",
        &[
            Value::Number(u64::from(is_welcomed)),
            Value::Number(seconds),
            Value::Number(unsent as u64),
        ],
    );
}

fn put_channels(sheet: &mut Sheet, channels: &[ChannelView<'_>]) {
    let mut on = 0u64;
    let mut op = 0u64;
    for channel in channels {
        on = on.saturating_add(u64::from(channel.is_on));
        op = op.saturating_add(u64::from(channel.is_op));
    }
    sheet.put_form(
        b"# TYPE eggnet_channels gauge\neggnet_channels $\n\
# TYPE eggnet_channels_on gauge\neggnet_channels_on $\n\
# TYPE eggnet_channels_op gauge\neggnet_channels_op $\n",
        &[
            Value::Number(channels.len() as u64),
            Value::Number(on),
            Value::Number(op),
        ],
    );
}

// The numbers of the links to other bots, and of the log.
fn put_links(sheet: &mut Sheet, links: LinksView<'_>, log: LogView<'_>) {
    sheet.put_form(
        b"# TYPE eggnet_linked_bots gauge\neggnet_linked_bots $\n\
# TYPE eggnet_lag_versions gauge\neggnet_lag_versions $\n\
# TYPE eggnet_links_unsent_bytes gauge\neggnet_links_unsent_bytes $\n\
# TYPE eggnet_log_waiting_bytes gauge\neggnet_log_waiting_bytes $\n\
# TYPE eggnet_log_dropped_lines gauge\neggnet_log_dropped_lines $\n",
        &[
            Value::Number(links.linked as u64),
            Value::Number(links.behind),
            Value::Number(links.unsent),
            Value::Number(log.waiting as u64),
            Value::Number(log.dropped),
        ],
    );
}

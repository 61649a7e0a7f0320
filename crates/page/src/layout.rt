// What stands around each page.
use crate::forms::Value;
use crate::request::PagePath;
use crate::sheet::Sheet;
use crate::view::{OwnView, PlaceView};

/// The most rows of a page; the next ones are on the next page.
pub const MAX_ROWS: usize = 100;

// Appends what stands before the content of a page of a bot: its title, and the links to the others.
pub(crate) fn put_top(sheet: &mut Sheet, own: OwnView, place: PlaceView, here: PagePath) {
    put_head(sheet, own, place, here);
    sheet.put(
        b"<body>\n<a class=\"skip\" href=\"#content\">Skip to the content</a>\n<header>\n<p>",
    );
    put_bot(sheet, own, place);
    sheet.put(b"</p>\n<nav aria-label=\"Pages\">\n");
    put_link(sheet, here, PagePath::Net);
    put_link(sheet, here, PagePath::Records);
    put_link(sheet, here, PagePath::Log);
    put_link(sheet, here, PagePath::Metrics);
    sheet.put_form(
        b"</nav>\n</header>\n<main id=\"content\">\n<h1>$</h1>\n",
        &[Value::Text(name_of(here))],
    );
}

// Appends the head of the document. The page of the net comes again by itself.
fn put_head(sheet: &mut Sheet, own: OwnView, place: PlaceView, here: PagePath) {
    sheet.put(
        b"<!DOCTYPE html>\n<html lang=\"en\">\n<head>\n<meta charset=\"utf-8\">\n\
<meta name=\"viewport\" content=\"width=device-width, initial-scale=1\">\n",
    );
    if here == PagePath::Net {
        sheet.put(b"<meta http-equiv=\"refresh\" content=\"30\">\n");
    }
    sheet.put_form(
        b"<link rel=\"stylesheet\" href=\"/style.css\">\n<title>$: ",
        &[Value::Text(name_of(here))],
    );
    put_bot(sheet, own, place);
    sheet.put(b"</title>\n</head>\n");
}

// Appends which bot this is.
fn put_bot(sheet: &mut Sheet, own: OwnView, place: PlaceView) {
    sheet.put_form(b"bot $", &[Value::Number(u64::from(own.number))]);
    match place {
        PlaceView::Alone => {}
        PlaceView::Hub => sheet.put_form(
            b", the hub of $ leaves",
            &[Value::Number(u64::from(own.leaves))],
        ),
        PlaceView::Leaf => sheet.put(b", a leaf"),
    }
}

// Appends the link to a page.
fn put_link(sheet: &mut Sheet, here: PagePath, page: PagePath) {
    let values = [Value::Text(address_of(page)), Value::Text(name_of(page))];
    if here == page {
        sheet.put_form(b"<a href=\"$\" aria-current=\"page\">$</a>\n", &values);
    } else {
        sheet.put_form(b"<a href=\"$\">$</a>\n", &values);
    }
}

// The name of a page.
fn name_of(page: PagePath) -> &'static [u8] {
    match page {
        PagePath::Net => b"Net",
        PagePath::Records => b"Records",
        PagePath::Log => b"Log",
        PagePath::Metrics => b"Metrics",
        PagePath::Style => b"Style",
    }
}

// The path of a page.
fn address_of(page: PagePath) -> &'static [u8] {
    match page {
        PagePath::Net => b"/",
        PagePath::Records => b"/records",
        PagePath::Log => b"/log",
        PagePath::Metrics => b"/metrics",
        PagePath::Style => b"/style.css",
    }
}

// Appends what stands after the content of a page, at second `now`.
pub(crate) fn put_end(sheet: &mut Sheet, now: u64) {
    sheet.put_form(
        b"</main>\n<footer>\n<p>As of $.</p>\n</footer>\n</body>\n</html>\n",
        &[Value::Time(now)],
    );
}

// Appends the links to the rows before those from `from` on, and to those from `next` on.
pub(crate) fn put_turns(sheet: &mut Sheet, page: PagePath, from: u64, next: Option<u64>) {
    if from == 0 && next.is_none() {
        return;
    }
    let address = address_of(page);
    sheet.put(b"<nav class=\"turns\" aria-label=\"Rows\">\n");
    if from > 0 {
        sheet.put_form(
            b"<a href=\"$?from=$\" rel=\"prev\">Previous</a>\n",
            &[
                Value::Text(address),
                Value::Number(from.saturating_sub(MAX_ROWS as u64)),
            ],
        );
    }
    if let Some(next) = next {
        sheet.put_form(
            b"<a href=\"$?from=$\" rel=\"next\">Next</a>\n",
            &[Value::Text(address), Value::Number(next)],
        );
    }
    sheet.put(b"</nav>\n");
}

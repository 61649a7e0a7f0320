// The fields of a request's head.
ghost use Rattle.std.specs.Prelude.{◌≡◌, All, List, ℕ, map, length};
ghost use Rattle.std.specs.Option.{option_copied};
ghost use Rattle.httparse.specs.Spans.{IsHeaderWithin, header_bytes};
ghost use Rattle.std.specs.Str.{str_eq_ignore_ascii_case};
ghost use Rattle.page.specs.Requests.{lone};

use httparse::spans::HeaderSpan;

// Returns the value of the only field of this `name` in `heard`. `None` if there is none, or more than one.
pub(crate) fn lone<'b>(heard: &'b [u8], fields: &[HeaderSpan], name: &[u8]) -> Option<&'b [u8]>
    requires within { All (IsHeaderWithin (length heard.now)) fields.now }
    ensures { option_copied result ≡ lone name.now (map (header_bytes heard.now) fields.now) }
{
    let mut found = None;
    for field in fields {
        if is_named(heard, field, name) {
            if found.is_some() {
                return None;
            }
            found = Some(field.value.of(heard));
        }
    }
    found
}

// Whether a field has this name.
fn is_named(heard: &[u8], field: &HeaderSpan, name: &[u8]) -> bool
    requires within { IsHeaderWithin (length heard.now) field.now }
    ensures { result ≡ str_eq_ignore_ascii_case (header_bytes heard.now field.now).0 name.now }
{
    field.name.of(heard).eq_ignore_ascii_case(name)
}

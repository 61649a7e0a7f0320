// Forms: words with a `$` for each value.
ghost use Rattle.std.specs.Prelude.{◌≡◌, length};
ghost use Rattle.page.specs.Marks.{ArePrinted};
ghost use Rattle.page.specs.Writing.{holes};

use crate::sheet::Sheet;
use flagexpr::Flags;

// A value in a form.
#[derive(Clone, Copy)]
pub(crate) enum Value<'a> {
    // A number, in base ten.
    Number(u64),
    // A second, as a date.
    Time(u64),
    // A text from outside, or words without markup.
    Text(&'a [u8]),
    // The letters of flags.
    Letters(Flags),
    // Yes in green, or no in red.
    Answer(bool),
    // By how many versions a bot is behind: none in green, or their number in red.
    Lag(u32),
}

impl Sheet {
    // Appends a form, with a value in place of each `$`.
    pub(crate) fn put_form(&mut self, form: &[u8], values: &[Value<'_>])
        requires printed { ArePrinted form.now }
        requires filled { holes form.now ≡ length values.now }
    {
        let mut rest = form;
        for value in values {
            let (words, others) = cut(rest);
            self.put(words);
            self.put_value(value);
            rest = others;
        }
        self.put(rest);
    }

    fn put_value(&mut self, value: &Value<'_>) {
        match value {
            Value::Number(number) => self.put_number(*number),
            Value::Time(second) => self.put_time(*second),
            Value::Text(text) => self.put_text(text),
            Value::Letters(flags) => self.put_letters(*flags),
            Value::Answer(true) => self.put(b"<span class=\"good\">yes</span>"),
            Value::Answer(false) => self.put(b"<span class=\"bad\">no</span>"),
            Value::Lag(0) => self.put(b"<span class=\"good\">none</span>"),
            Value::Lag(behind) => {
                self.put(b"<span class=\"bad\">behind by ");
                self.put_number(u64::from(*behind));
                self.put(b"</span>");
            }
        }
    }
}

// Cuts a form at its first `$`, which is in neither part.
fn cut(form: &[u8]) -> (&[u8], &[u8])
    requires printed { ArePrinted form.now }
    ensures words { ArePrinted result.0.now }
    ensures rest { ArePrinted result.1.now }
{
    match memchr::memchr(b'$', form) {
        Some(place) => (&form[..place], &form[place + 1..]),
        None => (form, b""),
    }
}

// The form of an answer.
ghost use Rattle.std.specs.Prelude.{◌≡◌};
ghost use Rattle.std.specs.Option.{option_copied};
ghost use Rattle.control.specs.Answering.{body_of, is_refusal};

/// Returns the lines of `answer` if it is whole, without its last line, which is a full stop alone.
pub fn body_of(answer: &[u8]) -> Option<&[u8]>
    ensures { option_copied result ≡ body_of answer.now }
{
    if answer == b".\n".as_slice() {
        return Some(b"");
    }
    let len = answer.len();
    if len >= 3 && &answer[len - 3..] == b"\n.\n".as_slice() {
        Some(&answer[..len - 2])
    } else {
        None
    }
}

/// Returns whether `body`, the lines of an answer, refuses the command: it begins with `refused` or with `fault`.
pub fn is_refusal(body: &[u8]) -> bool
    ensures { result ≡ is_refusal body.now }
{
    body.starts_with(b"refused ") || body.starts_with(b"fault ")
}

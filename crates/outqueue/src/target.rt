// For whom a line is.
ghost use Rattle.std.specs.Prelude.{◌≡◌, ◌≤◌, length};
ghost use Rattle.outqueue.specs.Shares.{space_in, target_of, is_for};

// Returns whether `line` has this target.
pub(crate) fn is_for(target: &[u8], line: &[u8]) -> bool
    ensures { result ≡ is_for target.now line.now }
{
    target_of(line) == target
}

// Returns the command and the first parameter of `line`: its bytes before the second space, or all if there is none.
pub(crate) fn target_of(line: &[u8]) -> &[u8]
    ensures { result.now ≡ target_of line.now }
{
    let command = space_in(line);
    if command == line.len() {
        return line;
    }
    let parameter = space_in(&line[command + 1..]);
    &line[..command + 1 + parameter]
}

// Returns where the first space is, or the length if there is none.
fn space_in(bytes: &[u8]) -> usize
    ensures place { result ≡ space_in bytes.now }
    ensures within { result ≤ length bytes.now }
{
    for (at, byte) in bytes.iter().enumerate() {
        if *byte == b' ' {
            return at;
        }
    }
    bytes.len()
}

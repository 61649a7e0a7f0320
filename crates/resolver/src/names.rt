// Names of hosts, and how a query spells them.
ghost use Rattle.std.specs.Prelude.{◌≡◌, ◌≤◌, ◌<◌, ◌+◌, length};
ghost use Rattle.resolver.specs.Names.{bare, octet_at, label_len, is_label_byte, fits_label, are_labels, is_name};

/// The most bytes of a name, without a dot at its end.
pub const MAX_NAME: usize = 253;

// The most bytes of a label.
const MAX_LABEL: usize = 63;

// Returns `name` without the dot at its end, if it has one.
pub(crate) fn bare(name: &[u8]) -> &[u8]
    ensures { result.now ≡ bare name.now }
{
    match name {
        [front @ .., b'.'] => front,
        _ => name,
    }
}

/// Returns whether `name` can be looked up: whether it is labels of 1 to 63 letters, digits, `-` and `_` with dots between
/// them, and at most 253 bytes. A dot at its end changes nothing.
pub fn is_host_name(name: &[u8]) -> bool
    ensures { result ≡ is_name (bare name.now) }
{
    is_name(bare(name))
}

// Returns whether `name` is labels of 1 to 63 bytes with dots between them, and at most 253 bytes.
pub(crate) fn is_name(name: &[u8]) -> bool
    ensures { result ≡ is_name name.now }
{
    name.len() <= MAX_NAME && are_labels(name)
}

fn are_labels(name: &[u8]) -> bool
    ensures { result ≡ are_labels 0 name.now }
{
    let mut run = 0;
    for byte in name {
        if *byte == b'.' {
            if !fits_label(run) {
                return false;
            }
            run = 0;
        } else {
            if !is_label_byte(*byte) {
                return false;
            }
            run += 1;
        }
    }
    fits_label(run)
}

fn fits_label(run: usize) -> bool
    ensures { result ≡ fits_label run }
{
    0 < run && run <= MAX_LABEL
}

fn is_label_byte(byte: u8) -> bool
    ensures { result ≡ is_label_byte byte }
{
    byte.is_ascii_alphanumeric() || byte == b'-' || byte == b'_'
}

// Returns the byte that a query has for the byte at `place` in `name`: a label's length for the dot before it.
pub(crate) fn octet_at(name: &[u8], place: usize) -> u8
    requires short { length name.now ≤ 255 }
    requires within { place < length name.now }
    ensures { result ≡ octet_at place name.now }
{
    match name[place] {
        b'.' => label_len(&name[place + 1..]),
        byte => byte,
    }
}

// Returns how many bytes stand before the first dot.
pub(crate) fn label_len(name: &[u8]) -> u8
    requires { length name.now ≤ 255 }
    ensures { result ≡ label_len name.now }
{
    name.iter().take_while(|byte| **byte != b'.').count() as u8
}

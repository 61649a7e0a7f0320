// Whether a hostmask is loose, and what to say of it.
ghost use Rattle.std.specs.Prelude.{◌≡◌, ◌≤◌, length};
ghost use Rattle.std.specs.List.{prefix_len};
ghost use Rattle.loosemask.specs.Loose.{after, before, has, has_name, is_domain, is_name_byte, is_open, is_other, is_user_byte, names_user};
ghost use Rattle.loosemask.specs.Loose.{fits_most_hosts, fits_other_users, looseness_of, looseness_by};

/// Whom a loose mask fits besides the people that it is meant for.
#[derive(Clone, Copy, Debug, PartialEq, Eq)]
pub enum Looseness {
    /// People on many other hosts.
    Hosts,
    /// Other people on the host, whose user names are longer.
    Users,
    /// Both of these.
    HostsAndUsers,
}

impl Looseness {
    ghost use Rattle.std.specs.Prelude.{◌≡◌};
    ghost use Rattle.loosemask.specs.Loose.{warning_of};

    /// Returns what to say to whoever gave the mask.
    pub fn warning(self) -> &'static str
        ensures { result.now ≡ warning_of self }
    {
        match self {
            Looseness::Hosts =>
                "warning: strangers on many hosts fit this mask: write more of the host",
            Looseness::Users =>
                "warning: other users fit too, as acme fits *me: write the user without *",
            Looseness::HostsAndUsers =>
                "warning: strangers on many hosts fit this mask: write more of the host, and the user without *",
        }
    }
}

/// Returns whom the hostmask `mask` fits besides the people that it is meant for, or `None` if it is not loose. The user
/// is what stands between the first `!` and the next `@`, and the host what follows.
pub fn looseness_of(mask: &[u8]) -> Option<Looseness>
    ensures { result ≡ looseness_of mask.now }
{
    let address = after(mask, b'!');
    let hosts = fits_most_hosts(after(address, b'@'));
    let users = fits_other_users(before(address, b'@'));
    looseness_by(hosts, users)
}

fn looseness_by(hosts: bool, users: bool) -> Option<Looseness>
    ensures { result ≡ looseness_by hosts users }
{
    match (hosts, users) {
        (true, true) => Some(Looseness::HostsAndUsers),
        (true, false) => Some(Looseness::Hosts),
        (false, true) => Some(Looseness::Users),
        (false, false) => None,
    }
}

// Whether the user of a mask has a `*`, and a part of a name as well.
fn fits_other_users(user: &[u8]) -> bool
    ensures { result ≡ fits_other_users user.now }
{
    has(user, b'*') && names_user(user)
}

fn names_user(user: &[u8]) -> bool
    ensures { result ≡ names_user user.now }
{
    user.iter().any(|byte| is_user_byte(*byte))
}

// Whether the host of a mask begins with a `*`, and names no domain after that.
fn fits_most_hosts(host: &[u8]) -> bool
    ensures { result ≡ fits_most_hosts host.now }
{
    let (front, rest) = host.split_at(open_len(host));
    has(front, b'*') && !is_domain(rest)
}

// How many bytes at the front of a host say nothing of it.
fn open_len(host: &[u8]) -> usize
    ensures value { result ≡ prefix_len is_open host.now }
    ensures within { result ≤ length host.now }
{
    host.iter().take_while(|byte| is_open(**byte)).count()
}

// Whether the end of a host is a name of two labels or more. An IPv4 address has digits alone, and an IPv6 address has
// colons.
fn is_domain(end: &[u8]) -> bool
    ensures { result ≡ is_domain end.now }
{
    has(end, b'.') && !has(end, b':') && has_name(end)
}

fn has_name(end: &[u8]) -> bool
    ensures { result ≡ has_name end.now }
{
    end.iter().any(|byte| is_name_byte(*byte))
}

fn is_user_byte(byte: u8) -> bool
    ensures { result ≡ is_user_byte byte }
{
    byte != b'*' && byte != b'?' && byte != b'~'
}

fn is_open(byte: u8) -> bool
    ensures { result ≡ is_open byte }
{
    byte == b'*' || byte == b'?' || byte == b'.' || byte == b':'
}

fn is_name_byte(byte: u8) -> bool
    ensures { result ≡ is_name_byte byte }
{
    !is_open(byte) && !byte.is_ascii_digit()
}

fn has(text: &[u8], byte: u8) -> bool
    ensures { result ≡ has byte text.now }
{
    text.iter().any(|other| *other == byte)
}

// What stands before the first of this byte.
fn before(text: &[u8], byte: u8) -> &[u8]
    ensures { result.now ≡ before byte text.now }
{
    &text[..len_before(text, byte)]
}

// What stands after the first of this byte.
fn after(text: &[u8], byte: u8) -> &[u8]
    ensures { result.now ≡ after byte text.now }
{
    match &text[len_before(text, byte)..] {
        [_, after @ ..] => after,
        [] => b"",
    }
}

fn len_before(text: &[u8], byte: u8) -> usize
    ensures value { result ≡ prefix_len (is_other byte) text.now }
    ensures within { result ≤ length text.now }
{
    text.iter().take_while(|other| **other != byte).count()
}

// Where a page is served, and who may read it.
ghost use Rattle.std.specs.Prelude.{◌≡◌, ◌==◌, IfOk, None, codes, take, drop};
ghost use Rattle.std.specs.List.{list_any};
ghost use Rattle.std.specs.Option.{option_copied};
ghost use Rattle.sha2.specs.Sha256.{sha256};
ghost use Rattle.page.specs.Sites.{after_colon, authority, basic_token, host_text, is_found, is_pair, shows, unbase64};

use base64::DecodeAllocError;
use base64::engine::general_purpose::STANDARD;
use bytetext::{NoMemory, Text};
use itoa::Buffer;
use sha2::{Digest, Sha256};
use std::alloc::Global;

/// Where a page is served, and who may read it. It keeps no password, only its digest.
///
/// ```text
/// let site = PageSite::new(alloc, b"127.0.0.1", 8300)?.with_password(password);
/// ```
pub struct PageSite {
    /// The Host of a request to the page's address.
    pub own: Text,
    /// The Host of a request to `localhost`.
    pub local: Text,
    /// The SHA-256 of the password, if a reader must show one.
    pub digest: Option<[u8; 32]>,
}

// By hand, so that this is proved once, and not in each function in which one ends.
impl Drop for PageSite {
    fn drop(self) {
        let PageSite {
            own: _,
            local: _,
            digest: _,
        } = self;
    }
}

impl PageSite {
    ghost use Rattle.std.specs.Prelude.{◌≡◌, IfOk, None, Some, codes, is_some, not};
    ghost use Rattle.sha2.specs.Sha256.{sha256};
    ghost use Rattle.page.specs.Sites.{authority, host_text, is_ours, passes};

    /// Creates the site of a page at the IP address `host` and `port`, which all may read.
    ///
    /// # Errors
    /// `NoMemory` if an allocation fails.
    pub fn new(alloc: Global, host: &[u8], port: u16) -> Result<PageSite, NoMemory>
        ensures own { IfOk result (λ site. site.own ≡ authority (host_text host.now) port) }
        ensures local { IfOk result (λ site. site.local ≡ authority (codes "localhost") port) }
        ensures open { IfOk result (λ site. site.digest ≡ None) }
    {
        let host = host_text(alloc, host)?;
        site_at(alloc, host.as_slice(), port)
    }

    /// Returns the same site, whose readers must show this `password`.
    pub fn with_password(mut self, password: &[u8]) -> PageSite
        ensures { result ≡ record self { digest = Some (sha256 password.now) } }
    {
        self.digest = Some(digest_of(password));
        self
    }

    // Whether a request with this Host is one to this page. A page of another host, whose name somebody has made lead to
    // this machine, gets no answer so.
    pub(crate) fn is_ours(&self, host: &[u8]) -> bool
        ensures { result ≡ is_ours self.now host.now }
    {
        host.eq_ignore_ascii_case(self.own.as_bytes())
            || host.eq_ignore_ascii_case(self.local.as_bytes())
    }

    // Whether all may read the page.
    pub(crate) fn is_open(&self) -> bool
        ensures { result ≡ not (is_some self.now.digest) }
    {
        self.digest.is_none()
    }

    // Whether a request whose field `Authorization` has this value may read the page.
    pub(crate) fn allows(&self, alloc: Global, value: &[u8]) -> Result<bool, NoMemory>
        ensures { IfOk result (λ allowed. allowed ≡ passes self.now.digest value.now) }
    {
        match &self.digest {
            Some(digest) => shows(alloc, digest, value),
            None => Ok(true),
        }
    }
}

// The site at `host`, as a URL has it, and `port`.
fn site_at(alloc: Global, host: &[u8], port: u16) -> Result<PageSite, NoMemory>
    ensures own { IfOk result (λ site. site.own ≡ authority host.now port) }
    ensures local { IfOk result (λ site. site.local ≡ authority (codes "localhost") port) }
    ensures open { IfOk result (λ site. site.digest ≡ None) }
{
    let own = authority(alloc, host, port)?;
    let local = authority(alloc, b"localhost", port)?;
    Ok(PageSite {
        own,
        local,
        digest: None,
    })
}

// Whether the value of a field `Authorization` shows the password of this digest (RFC 7617 section 2). Digests are
// compared, so the time that this takes tells nothing about the password.
fn shows(alloc: Global, digest: &[u8; 32], value: &[u8]) -> Result<bool, NoMemory>
    ensures { IfOk result (λ allowed. allowed ≡ shows digest.now value.now) }
{
    match basic_token(value) {
        Some(token) => is_shown(alloc, digest, token),
        None => Ok(false),
    }
}

// Whether a text is the Base64 of a user's name, a colon and the password of this digest.
fn is_shown(alloc: Global, digest: &[u8; 32], token: &[u8]) -> Result<bool, NoMemory>
    ensures { IfOk result (λ allowed. allowed ≡ is_found digest.now (unbase64 token.now)) }
{
    match STANDARD.decode(alloc, token) {
        Ok(pair) => Ok(is_pair(digest, pair.as_slice())),
        Err(DecodeAllocError::DecodeError(_)) => Ok(false),
        Err(DecodeAllocError::OutOfMemory) => Err(NoMemory),
    }
}

// Whether a user's name, a colon and the password of this digest are there.
fn is_pair(digest: &[u8; 32], pair: &[u8]) -> bool
    ensures { result ≡ is_pair digest.now pair.now }
{
    match after_colon(pair) {
        Some(password) => digest_of(password) == *digest,
        None => false,
    }
}

fn digest_of(password: &[u8]) -> [u8; 32]
    ensures { result ≡ sha256 password.now }
{
    Sha256::digest(password)
}

// What stands after `Basic` and a space.
fn basic_token(value: &[u8]) -> Option<&[u8]>
    ensures { option_copied result ≡ basic_token value.now }
{
    let (scheme, token) = cut_at(value, 6);
    if scheme.eq_ignore_ascii_case(b"basic ") {
        Some(token)
    } else {
        None
    }
}

// Cuts bytes after the first `most`, or at their end.
fn cut_at(bytes: &[u8], most: usize) -> (&[u8], &[u8])
    ensures front { result.0.now ≡ take most bytes.now }
    ensures back { result.1.now ≡ drop most bytes.now }
{
    bytes.split_at(bytes.len().min(most))
}

// What stands after the first colon.
fn after_colon(pair: &[u8]) -> Option<&[u8]>
    ensures { option_copied result ≡ after_colon pair.now }
{
    let mut rest = pair;
    while let Some((byte, behind)) = rest.split_first() {
        if *byte == b':' {
            return Some(behind);
        }
        rest = behind;
    }
    None
}

// The host as a URL has it: an address of IPv6 stands in brackets.
fn host_text(alloc: Global, host: &[u8]) -> Result<Vec<u8>, NoMemory>
    ensures { IfOk result (λ text. text.items ≡ host_text host.now) }
{
    let text = if has_colon(host) {
        [b"[", host, b"]"].concat(alloc)
    } else {
        Vec::from_slice(alloc, host)
    };
    match text {
        Ok(text) => Ok(text),
        Err(_) => Err(NoMemory),
    }
}

fn has_colon(host: &[u8]) -> bool
    ensures { result ≡ list_any (λ b. b == 58) host.now }
{
    host.contains(&b':')
}

// A host and its port, as the Host of a request has them.
fn authority(alloc: Global, host: &[u8], port: u16) -> Result<Text, NoMemory>
    ensures { IfOk result (λ text. text ≡ authority host.now port) }
{
    if port == 80 {
        return Text::from_slice(alloc, host);
    }
    let mut buffer = Buffer::new();
    let digits = buffer.format(port).as_bytes();
    match [host, b":", digits].concat(alloc) {
        Ok(text) => Ok(Text::new(text)),
        Err(_) => Err(NoMemory),
    }
}

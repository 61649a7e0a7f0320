// Who a person is: by the account of the network's services first, and else by `nick!user@host`.
ghost use Rattle.std.specs.Prelude.{◌≡◌, ◌↔◌, ◌≤◌, ◌==◌, ℕ, true, false, List, [], length, codes, IsTrue, IfOk};
ghost use Rattle.std.specs.List.{list_all, list_any};
ghost use Rattle.std.specs.Str.{bytes_eq};
ghost use Rattle.rfccase.specs.Casemapping.{IsSameBy};
ghost use Rattle.rfccase.specs.declared.casemappings.Casemapping.{Casemapping};
ghost use Rattle.wildmask.specs.Masks.{is_account_byte, is_account_mask, is_person_mask};
ghost use Rattle.userfile.specs.Hostmasks.{is_match};
ghost use Rattle.userfile.specs.Persons.{handle_of};
ghost use Rattle.userfile.specs.Shapes.{is_person};
ghost use Rattle.userfile.specs.declared.user.User.{User};
ghost use Rattle.procs.specs.Identity.{account_claim, is_account, is_known_account, claim_by, handle_by, has_bang, without};

use crate::limits::{MAX_ACCOUNT, MAX_MASK};
use arrayvec::ArrayVec;
use bytetext::{NoMemory, Text};
use rfccase::Casemapping;
use std::alloc::Global;
use std::marker::Model;
use userfile::Userfile;

// The claim of an account, in place, so that nothing is allocated to look a person up.
#[derive(Drop)]
struct AccountClaim {
    bytes: ArrayVec<u8, MAX_MASK>,
}

impl Model for AccountClaim {
    ghost use Rattle.std.specs.Prelude.{List, ℕ};

    ghost Value = { List ℕ };

    ghost view = { λ claim. claim.bytes.items };
}

impl AccountClaim {
    ghost use Rattle.std.specs.Prelude.{◌≡◌, ◌≤◌, length};
    ghost use Rattle.procs.specs.Identity.{account_claim};

    // Creates the claim of `account`.
    fn new(account: &[u8]) -> AccountClaim
        requires { length account.now ≤ MAX_ACCOUNT }
        ensures { result ≡ account_claim account.now }
    {
        let mut bytes = ArrayVec::new();
        bytes.try_extend_from_slice(b"$a:").unwrap();
        bytes.try_extend_from_slice(account).unwrap();
        AccountClaim { bytes }
    }

    // Returns the bytes.
    fn as_bytes(&self) -> &[u8]
        ensures { result.now ≡ self.now }
    {
        self.bytes.as_slice()
    }
}

/// Returns the handle of the person who is logged in as `account`, which is empty if no account is known, and has the
/// address `who`, written as `nick!user@host`. A user with a hostmask `$a:NAME` of the account is that person, whatever
/// the address. Otherwise hostmasks decide as in [`Userfile::handle_of`]. Returns `*` if none matches. `mapping` is the
/// casemapping of the person's server, by which masks match. Does not allocate.
#[tactic(auto, unfolding(crate::specs::Identity::handle_by, crate::specs::Identity::is_known_account))]
pub fn handle_by<'a>(
    userfile: &'a Userfile,
    mapping: Casemapping,
    account: &[u8],
    who: &[u8],
) -> &'a [u8]
    ensures { result.now ≡ handle_by mapping userfile.now.users account.now who.now }
{
    if is_account(account) {
        let claim = AccountClaim::new(account);
        let handle = userfile.handle_of(mapping, claim.as_bytes());
        if !is_star(handle) {
            return handle;
        }
    }
    userfile.handle_of(mapping, who)
}

/// Returns the text by which [`handle_by`] finds a person: `$a:NAME` if a user has a hostmask of the account NAME, and
/// else `who`.
///
/// # Errors
/// Returns `NoMemory` if the text can't be allocated, never if `account` and `who` are both empty.
#[tactic(auto, unfolding(crate::specs::Identity::claim_by, crate::specs::Identity::is_known_account))]
pub fn claim_by(
    alloc: Global,
    userfile: &Userfile,
    mapping: Casemapping,
    account: &[u8],
    who: &[u8],
) -> Result<Text, NoMemory>
    ensures { IfOk result (λ claim. claim ≡ claim_by mapping userfile.now.users account.now who.now) }
{
    if is_account(account) {
        let claim = AccountClaim::new(account);
        if !is_star(userfile.handle_of(mapping, claim.as_bytes())) {
            return Text::from_slice(alloc, claim.as_bytes());
        }
    }
    Text::from_slice(alloc, who)
}

// Whether this takes the place of a handle, as no user is found.
fn is_star(handle: &[u8]) -> bool
    ensures { result ≡ bytes_eq handle.now (codes "*") }
{
    handle == b"*".as_slice()
}

// Whether a hostmask can be of this account.
#[tactic(auto, unfolding(crate::specs::Identity::is_account))]
fn is_account(account: &[u8]) -> bool
    ensures value { result ≡ is_account account.now }
    ensures short { IsTrue result → length account.now ≤ MAX_ACCOUNT }
{
    !account.is_empty() && account.len() <= MAX_ACCOUNT && are_account_bytes(account)
}

fn are_account_bytes(name: &[u8]) -> bool
    ensures { result ≡ list_all is_account_byte name.now }
{
    name.iter().all(|byte| is_account_byte(*byte))
}

// Whether a hostmask's name of an account can have this byte.
fn is_account_byte(byte: u8) -> bool
    ensures { result ≡ is_account_byte byte }
{
    byte > b' ' && !matches!(byte, b'!' | b'@' | b'*' | b'?')
}

/// A law; calling it does nothing. Who a person is, by account and address:
///
/// - [`handle_by`] finds a person by the text of [`claim_by`].
/// - If a user has a hostmask of the account, hostmasks of accounts alone decide who the person is, whatever the
///   address: without the users' hostmasks `nick!user@host` they decide the same.
/// - If no account is known, or no user has a hostmask of it, no hostmask of an account counts: without the users'
///   hostmasks `$a:NAME` the others decide the same.
/// - A hostmask `$a:NAME` without a backslash, if NAME can be an account, matches the accounts that are NAME by the
///   server's casemapping, and no others.
/// - The text of `claim_by` is a person ([`userfile::is_person`]) if `who` is one.
pub fn laws_of_identity()
    ensures found { (mapping : Casemapping) (users : List User) (account who : List ℕ)
        → handle_by mapping users account who ≡ handle_of mapping users (claim_by mapping users account who) }
    ensures accounts { (mapping : Casemapping) (users : List User) (account who : List ℕ) → is_known_account mapping users account ≡ true
        → handle_by mapping users account who ≡ handle_of mapping (without is_person_mask users) (account_claim account) }
    ensures addresses { (mapping : Casemapping) (users : List User) (account who : List ℕ) → is_known_account mapping users account ≡ false
        → has_bang who ≡ true → handle_by mapping users account who ≡ handle_of mapping (without is_account_mask users) who }
    ensures strangers { (mapping : Casemapping) (users : List User) → is_known_account mapping users [] ≡ false }
    ensures names { (mapping : Casemapping) (name account : List ℕ) → is_account name ≡ true → list_any (λ b. b == 92) name ≡ false
        → (is_match mapping (account_claim name) (account_claim account) ≡ true) ↔ IsSameBy mapping name account }
    ensures persons { (mapping : Casemapping) (users : List User) (account who : List ℕ) → is_person who ≡ true
        → is_person (claim_by mapping users account who) ≡ true }
{}

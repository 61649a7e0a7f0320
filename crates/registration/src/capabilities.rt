// The capabilities that a client asks a server for.
ghost use Rattle.std.specs.Prelude.{◌≡◌};
ghost use Rattle.registration.specs.Sets.{named_mechanisms};

use crate::lists::{has_item, item_tail};
use crate::mechanism::Mechanisms;
use bytetext::first_word;

/// A set of the capabilities that a client can ask for beside `sasl`. With none of them a server puts tags before its
/// lines.
#[derive(Clone, Copy)]
pub struct Capabilities {
    /// `account-notify`: the server says when somebody logs in or out.
    pub account_notify: bool,
    /// `extended-join`: a JOIN says the account. It is asked for only together with `account-notify`: else the account of
    /// somebody who logs out would stay known.
    pub extended_join: bool,
    /// `multi-prefix`: a list of members shows all their modes.
    pub multi_prefix: bool,
    /// `userhost-in-names`: a list of members shows their users and hosts.
    pub userhost_in_names: bool,
    /// `chghost`: the server says when somebody's user or host changes.
    pub chghost: bool,
    /// `away-notify`: the server says when somebody goes away or comes back.
    pub away_notify: bool,
    /// `invite-notify`: the server says when somebody is invited to a channel.
    pub invite_notify: bool,
}

impl Capabilities {
    ghost use Rattle.std.specs.Prelude.{◌≡◌};
    ghost use Rattle.registration.specs.Sets.{both_capabilities, capabilities_in, either_capabilities, is_empty, no_capabilities, without_stale_accounts};

    /// Returns the empty set.
    pub fn none() -> Capabilities
        ensures { result ≡ no_capabilities }
    {
        Capabilities {
            account_notify: false,
            extended_join: false,
            multi_prefix: false,
            userhost_in_names: false,
            chghost: false,
            away_notify: false,
            invite_notify: false,
        }
    }

    // The capabilities of a list with spaces, as servers write it.
    pub(crate) fn of(list: &[u8]) -> Capabilities
        ensures { result ≡ capabilities_in list.now }
    {
        Capabilities {
            account_notify: has_item(b' ', b"account-notify", list),
            extended_join: has_item(b' ', b"extended-join", list),
            multi_prefix: has_item(b' ', b"multi-prefix", list),
            userhost_in_names: has_item(b' ', b"userhost-in-names", list),
            chghost: has_item(b' ', b"chghost", list),
            away_notify: has_item(b' ', b"away-notify", list),
            invite_notify: has_item(b' ', b"invite-notify", list),
        }
    }

    // Those that are in both sets.
    pub(crate) fn both(&self, other: &Capabilities) -> Capabilities
        ensures { result ≡ both_capabilities self.now other.now }
    {
        Capabilities {
            account_notify: self.account_notify && other.account_notify,
            extended_join: self.extended_join && other.extended_join,
            multi_prefix: self.multi_prefix && other.multi_prefix,
            userhost_in_names: self.userhost_in_names && other.userhost_in_names,
            chghost: self.chghost && other.chghost,
            away_notify: self.away_notify && other.away_notify,
            invite_notify: self.invite_notify && other.invite_notify,
        }
    }

    // Without extended-join, if account-notify is not in the set: an account that a JOIN says is of use only if the server
    // also says when somebody logs in or out.
    pub(crate) fn without_stale_accounts(&self) -> Capabilities
        ensures { result ≡ without_stale_accounts self.now }
    {
        let mut set = *self;
        set.extended_join = self.extended_join && self.account_notify;
        set
    }

    // Those that are in one of the sets.
    pub(crate) fn either(&self, other: &Capabilities) -> Capabilities
        ensures { result ≡ either_capabilities self.now other.now }
    {
        Capabilities {
            account_notify: self.account_notify || other.account_notify,
            extended_join: self.extended_join || other.extended_join,
            multi_prefix: self.multi_prefix || other.multi_prefix,
            userhost_in_names: self.userhost_in_names || other.userhost_in_names,
            chghost: self.chghost || other.chghost,
            away_notify: self.away_notify || other.away_notify,
            invite_notify: self.invite_notify || other.invite_notify,
        }
    }

    // Whether the set is empty.
    pub(crate) fn is_empty(&self) -> bool
        ensures { result ≡ is_empty self.now }
    {
        !(self.account_notify
            || self.extended_join
            || self.multi_prefix
            || self.userhost_in_names
            || self.chghost
            || self.away_notify
            || self.invite_notify)
    }
}

/// What a server's list of capabilities offers.
#[derive(Clone, Copy)]
pub struct Offer {
    /// Whether it has `sasl`.
    pub sasl: bool,
    /// The mechanisms that it names for `sasl`; all if it has `sasl` and names none.
    pub mechanisms: Mechanisms,
    /// The other capabilities in it that a client can ask for.
    pub others: Capabilities,
}

impl Offer {
    ghost use Rattle.std.specs.Prelude.{◌≡◌, MatchOption};
    ghost use Rattle.registration.specs.Sets.{both_offers, no_offer, offer_in, sasl_offer};

    // The offer of no list.
    pub(crate) fn none() -> Offer
        ensures { result ≡ no_offer }
    {
        Offer {
            sasl: false,
            mechanisms: Mechanisms::of(b""),
            others: Capabilities::none(),
        }
    }

    // The offer of a list.
    pub(crate) fn of(list: &[u8]) -> Offer
        ensures { result ≡ offer_in list.now }
    {
        let others = Capabilities::of(list);
        match item_tail(b' ', b"sasl", list) {
            None => Offer {
                sasl: false,
                mechanisms: Mechanisms::of(b""),
                others,
            },
            Some(tail) => Offer {
                sasl: true,
                mechanisms: named_mechanisms(tail),
                others,
            },
        }
    }

    // The offer of two lists.
    pub(crate) fn and(&self, more: &Offer) -> Offer
        ensures { result ≡ both_offers self.now more.now }
    {
        Offer {
            sasl: self.sasl || more.sasl,
            mechanisms: self.mechanisms.either(&more.mechanisms),
            others: self.others.either(&more.others),
        }
    }
}

// The mechanisms that follow the word `sasl`: a list after '=', or all.
fn named_mechanisms(tail: &[u8]) -> Mechanisms
    ensures { result ≡ named_mechanisms tail.now }
{
    match tail {
        [b'=', list @ ..] => Mechanisms::of(first_word(list)),
        _ => Mechanisms::all(),
    }
}

// Who a person is: the best claim of the hostmasks that match, looked up by the ends of the person's text.
ghost use Rattle.std.specs.Prelude.{◌≡◌, ◌≤◌, ◌&&◌, ℕ, List, None, length, slice_get};
ghost use Rattle.std.specs.List.{list_any};
ghost use Rattle.std.specs.Option.{option_copied};
ghost use Rattle.indexmap.specs.IndexMap.{values};
ghost use Rattle.rfccase.specs.declared.casemappings.Casemapping.{Casemapping};
ghost use Rattle.wildmask.specs.Signatures.{text_signature};
ghost use Rattle.userfile.specs.Hostmasks.{is_match};
ghost use Rattle.userfile.specs.Index.{IsIndexOf, asked, is_of};
ghost use Rattle.userfile.specs.Persons.{user_for};
ghost use Rattle.userfile.specs.Search.{is_better, may_win, has_match, after_listings, user_at, SameBest};

use crate::hostmask::Hostmask;
use crate::index::{Listing, TAIL_LENGTHS, TailIndex, listings_of};
use crate::user::User;
use indexmap::IndexMap;
use rfccase::Casemapping;
use wildmask::Signature;

// The best claim to be a person: the number of the mask's literals, and the position of its user.
#[derive(Clone, Copy)]
pub(crate) struct Winner {
    pub(crate) literals: u8,
    pub(crate) place: usize,
}

// The user whose hostmask decides who a person is.
pub(crate) fn user_for<'a>(
    mapping: Casemapping,
    users: &'a IndexMap<Vec<u8>, User>,
    index: &TailIndex,
    who: &[u8],
) -> Option<&'a User>
    requires { IsIndexOf index.now (values users.now) }
    ensures { option_copied result ≡ user_for mapping who.now (values users.now) }
{
    user_at(users, best_claim(mapping, users, index, who))
}

// The user of the best claim.
fn user_at<'a>(users: &'a IndexMap<Vec<u8>, User>, best: Option<Winner>) -> Option<&'a User>
    ensures { option_copied result ≡ user_at (values users.now) best }
{
    match best {
        Some(best) => match users.get_index(best.place) {
            Some((_, user)) => Some(user),
            None => None,
        },
        None => None,
    }
}

// The best claim of the masks that the index has under any end of the person's text.
fn best_claim(
    mapping: Casemapping,
    users: &IndexMap<Vec<u8>, User>,
    index: &TailIndex,
    who: &[u8],
) -> Option<Winner>
    ensures { result ≡ after_listings mapping who.now (values users.now) (asked index.now who.now 17) None }
{
    let pairs = Signature::of(who);
    let mut best = None;
    for len in 0..TAIL_LENGTHS {
        best = best_of_group(
            mapping,
            best,
            users,
            listings_of(index, who, len),
            who,
            pairs,
        );
    }
    best
}

// The best of the best claim so far and the claims of these listings.
fn best_of_group(
    mapping: Casemapping,
    best: Option<Winner>,
    users: &IndexMap<Vec<u8>, User>,
    group: &[Listing],
    who: &[u8],
    pairs: Signature,
) -> Option<Winner>
    requires { pairs ≡ text_signature who.now }
    ensures { result ≡ after_listings mapping who.now (values users.now) group.now best }
{
    let mut so_far = best;
    let mut rest = group;
    while let [listing, others @ ..] = from_first_within(rest, pairs) {
        if may_win(listing, so_far, pairs) && has_match(mapping, users, listing, who) {
            so_far = Some(Winner {
                literals: listing.literals,
                place: listing.place as usize,
            });
        }
        rest = others;
    }
    so_far
}

// The listings from the first one whose pairs the person's text has. Most of a large group is skipped here, in a loop
// of its own for speed.
fn from_first_within(group: &[Listing], pairs: Signature) -> &[Listing]
    ensures same { (mapping : Casemapping) → SameBest mapping pairs result.now group.now }
    ensures shorter { length result.now ≤ length group.now }
{
    let mut rest = group;
    while let [first, others @ ..] = rest {
        if first.pairs.is_within(pairs) {
            return rest;
        }
        rest = others;
    }
    rest
}

// Whether a listing's masks are worth a match: the person's text has the pairs that they need, and they would be
// better.
fn may_win(listing: &Listing, best: Option<Winner>, pairs: Signature) -> bool
    ensures { (who : List ℕ) → pairs ≡ text_signature who → result ≡ may_win who listing.now best }
{
    listing.pairs.is_within(pairs) && is_better(listing.literals, listing.place as usize, best)
}

// Whether one of the masks of a listing matches the person.
fn has_match(
    mapping: Casemapping,
    users: &IndexMap<Vec<u8>, User>,
    listing: &Listing,
    who: &[u8],
) -> bool
    ensures { result ≡ has_match mapping who.now listing.now (slice_get (values users.now) listing.now.place) }
{
    match users.get_index(listing.place as usize) {
        Some((_, user)) => one_matches(mapping, user.masks.as_slice(), listing, who),
        None => false,
    }
}

// Whether any of these masks, those of the listing's user, belongs to the listing and matches the person.
fn one_matches(mapping: Casemapping, masks: &[Hostmask], listing: &Listing, who: &[u8]) -> bool
    ensures { result ≡ list_any (λ mask. is_of listing.now mask && is_match mapping mask who.now) masks.now }
{
    masks
        .iter()
        .any(|mask| listing.is_of(mask) && mask.matches(mapping, who))
}

// Whether a mask with `literals` literals, of the user at position `place`, is better than the best claim so far.
fn is_better(literals: u8, place: usize, best: Option<Winner>) -> bool
    ensures { result ≡ is_better literals place best }
{
    match best {
        Some(best) => {
            literals > best.literals || (literals == best.literals && place < best.place)
        }
        None => true,
    }
}

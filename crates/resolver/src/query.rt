// A query for the addresses of a name.
ghost use Rattle.std.specs.Prelude.{◌≡◌, ◌≤◌, ◌+◌, ◌++◌, length};
ghost use Rattle.arrayvec.specs.ArrayVec.{array_vec_len};
ghost use Rattle.resolver.specs.Names.{spelled};
ghost use Rattle.resolver.specs.declared.query.TheConstants.{MAX_QUERY};

use crate::family::{Family, kind_of};
use crate::names::{bare, is_name, label_len, octet_at};
use arrayvec::ArrayVec;
use std::marker::Model;

/// The most bytes of a query: 12 of its header, 255 of a name, 4 of type and class.
pub const MAX_QUERY: usize = 271;

// The bytes of a header.
pub(crate) const HEADER: usize = 12;

/// A query for the addresses of one name, of one family (RFC 1035 section 4). Contracts see it as a
/// `Rattle.resolver.specs.Queries.Asked`.
#[derive(Drop)]
pub struct Query {
    bytes: ArrayVec<u8, MAX_QUERY>,
    family: Family,
}

impl Model for Query {
    ghost use Rattle.std.specs.Prelude.{◌≤◌};
    ghost use Rattle.arrayvec.specs.ArrayVec.{array_vec_len};
    ghost use Rattle.resolver.specs.Queries.{Asked};
    ghost use Rattle.resolver.specs.declared.query.TheConstants.{HEADER};

    ghost Value = { Asked };

    ghost view = { λ query. record { bytes = query.bytes.items; family = query.family } };

    ghost invariant = { λ query. HEADER ≤ array_vec_len query.bytes };
}

impl Query {
    ghost use Rattle.std.specs.Prelude.{◌≡◌, ◌≤◌, length};
    ghost use Rattle.resolver.specs.Queries.{query_of};
    ghost use Rattle.resolver.specs.declared.query.TheConstants.{HEADER, MAX_QUERY};

    /// Creates the query with the number `id` for the addresses of `name` that are of this `family`. Returns `None` if
    /// `name` is not labels of 1 to 63 letters, digits, `-` and `_` with dots between them, or is longer than 253
    /// bytes. A dot at its end changes nothing.
    pub fn new(id: u16, name: &[u8], family: Family) -> Option<Query>
        ensures { result ≡ query_of id name.now family }
    {
        let name = bare(name);
        if !is_name(name) {
            return None;
        }
        let mut bytes = ArrayVec::new();
        let [high, low] = id.to_be_bytes();
        put(&mut bytes, &[high, low, 1, 0, 0, 1, 0, 0, 0, 0, 0, 0]);
        put_name(&mut bytes, name);
        put(&mut bytes, &[0, kind_of(family), 0, 1]);
        Some(Query { bytes, family })
    }

    /// Returns the bytes of the query.
    pub fn as_bytes(&self) -> &[u8]
        ensures value { result.now ≡ self.now.bytes }
        ensures long { HEADER ≤ length result.now }
        ensures short { length result.now ≤ MAX_QUERY }
    {
        self.bytes.as_slice()
    }

    /// Returns the family of the addresses that the query asks for.
    pub fn family(&self) -> Family
        ensures { result ≡ self.now.family }
    {
        self.family
    }
}

// Appends `more`.
fn put(bytes: &mut ArrayVec<u8, MAX_QUERY>, more: &[u8])
    requires { array_vec_len bytes.old + length more.now ≤ MAX_QUERY }
    ensures items { bytes.new.items ≡ bytes.old.items ++ more.now }
    ensures len { array_vec_len bytes.new ≡ array_vec_len bytes.old + length more.now }
{
    bytes.try_extend_from_slice(more).unwrap();
}

// Appends the spelling of `name`.
fn put_name(bytes: &mut ArrayVec<u8, MAX_QUERY>, name: &[u8])
    requires short { length name.now ≤ 253 }
    requires room { array_vec_len bytes.old + length name.now + 2 ≤ MAX_QUERY }
    ensures items { bytes.new.items ≡ bytes.old.items ++ spelled name.now }
    ensures len { array_vec_len bytes.new ≡ array_vec_len bytes.old + length name.now + 2 }
{
    bytes.push(label_len(name));
    for place in 0..name.len() {
        bytes.push(octet_at(name, place));
    }
    bytes.push(0);
}

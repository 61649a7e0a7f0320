// The items of a mask, one byte each, ready to match.
ghost use Rattle.std.specs.Prelude.{◌≡◌, ◌↔◌, IsTrue};
ghost use Rattle.wildmask.specs.declared.items.Item.TheVariants.{AnyText};
ghost use Rattle.wildmask.specs.Codes.{decoded, lower};
ghost use Rattle.wildmask.specs.Items.{is_literal};

use crate::items::Item;
use rfccase::{Casemapping, fold_by};

// Upper-case bytes: no literal has them, since literals are kept in lower case.
const ANY_BYTE: u8 = b'A';

const ANY_TEXT: u8 = b'B';

const NO_SPACE: u8 = b'C';

const SPACES: u8 = b'D';

/// Returns the byte of `item`: the lower case of a literal, or a byte that no literal has.
pub fn code_of(mapping: Casemapping, item: Item) -> u8
    ensures { decoded result ≡ lower mapping item }
{
    match item {
        Item::Literal(byte) => fold_by(mapping, byte),
        Item::AnyByte => ANY_BYTE,
        Item::AnyText => ANY_TEXT,
        Item::NoSpace => NO_SPACE,
        Item::Spaces => SPACES,
    }
}

/// Returns the item of the byte `code`.
pub fn item_of(code: u8) -> Item
    ensures { result ≡ decoded code }
{
    match code {
        ANY_BYTE => Item::AnyByte,
        ANY_TEXT => Item::AnyText,
        NO_SPACE => Item::NoSpace,
        SPACES => Item::Spaces,
        byte => Item::Literal(byte),
    }
}

/// Returns whether the item of the byte `code` is a literal.
pub fn is_literal(code: u8) -> bool
    ensures { result ≡ is_literal (decoded code) }
{
    !(ANY_BYTE..=SPACES).contains(&code)
}

/// Returns whether the item of the byte `code` is a star.
pub fn is_star(code: u8) -> bool
    ensures { IsTrue result ↔ (decoded code ≡ AnyText) }
{
    code == ANY_TEXT
}

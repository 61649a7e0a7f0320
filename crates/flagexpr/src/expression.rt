// A flag expression, kept as the sets of letters of its parts.
ghost use Rattle.std.specs.Prelude.{◌≡◌, ◌≤◌, length, count_by, IfOk};
ghost use Rattle.std.specs.List.{list_all, before_first, after_first, position_or_len};
ghost use Rattle.std.specs.Result.{result_err};
ghost use Rattle.flagexpr.specs.Faults.{is_join, has_place, expression_fault};
ghost use Rattle.flagexpr.specs.Expression.{Expression, part_of, expression_of, is_forbidden, wants_nothing, meets};

use crate::fault::FlagFault;
use crate::flags::{Flags, is_lone};
use std::marker::Model;

// The letters of one part.
#[derive(Clone, Copy, Debug)]
struct Part {
    wanted: Flags,
    forbidden: Flags,
}

impl Model for Part {
    ghost use Rattle.flagexpr.specs.Expression.{Part};

    ghost Value = { Part };

    ghost view = { λ p. record { wanted = p.wanted; forbidden = p.forbidden } };

    ghost inverse = { λ p. record { wanted = p.wanted; forbidden = p.forbidden } };
}

/// Which flags are wanted, and which are forbidden.
///
/// An expression is `*` alone, which anybody meets, or one to three parts, joined by `|` only or by `&` only. The parts
/// are compared with a person's global, channel and bot flags, in this order. A part is letters with signs, and may be
/// empty. A sign holds until the next one or the end of its part: after `+`, or with no sign before it, a letter is
/// wanted, and after `-` it is forbidden.
///
/// Contracts see the sets of wanted and forbidden letters of the three parts, and whether `&` joins them.
#[derive(Clone, Copy, Debug)]
pub struct FlagExpr {
    every: bool,
    global: Part,
    chan: Part,
    bot: Part,
}

impl Model for FlagExpr {
    ghost use Rattle.flagexpr.specs.Expression.{Expression};

    ghost Value = { Expression };

    ghost view = { λ e. record { every = e.every; global = e.global; chan = e.chan; bot = e.bot } };

    ghost inverse = { λ e. record { every = e.every; global = e.global; chan = e.chan; bot = e.bot } };
}

impl FlagExpr {
    /// Parses the expression that `text` spells. Does not allocate.
    ///
    /// # Errors
    /// In this order: `BadLetter` if a byte is not a letter, sign or join, unless the text is `*` alone; `MixedJoin` if
    /// it has both joins; `TooManyParts` if it has more than two.
    #[tactic(auto, unfolding(crate::specs::Expression::expression_of))]
    pub fn parse(text: &[u8]) -> Result<FlagExpr, FlagFault>
        ensures fault { result_err result ≡ expression_fault text.now }
        ensures value { IfOk result (λ e. e ≡ expression_of text.now) }
    {
        if let Some(fault) = fault_of(text) {
            return Err(fault);
        }
        let (global, rest) = cut(text);
        let (chan, bot) = cut(rest);
        Ok(FlagExpr {
            every: text.contains(&b'&'),
            global: part_of(global),
            chan: part_of(chan),
            bot: part_of(bot),
        })
    }

    /// Returns whether a person with the flags `global`, `chan` and `bot` meets the expression.
    ///
    /// Anybody meets an expression without letters. Otherwise no forbidden letter may be in its part's set, under
    /// either join. If letters are wanted, one of them must be in its part's set under `|` or in a single part, and
    /// each of them under `&`.
    #[tactic(auto, unfolding(crate::specs::Expression::meets))]
    pub fn meets(&self, global: Flags, chan: Flags, bot: Flags) -> bool
        ensures { result ≡ meets self.now global chan bot }
    {
        if self.is_forbidden(global, chan, bot) {
            return false;
        }
        if self.wants_nothing() {
            return true;
        }
        if self.every {
            self.global.wanted.is_within(global)
                && self.chan.wanted.is_within(chan)
                && self.bot.wanted.is_within(bot)
        } else {
            self.global.wanted.shares(global)
                || self.chan.wanted.shares(chan)
                || self.bot.wanted.shares(bot)
        }
    }

    // Whether any forbidden letter is in its part's set.
    fn is_forbidden(&self, global: Flags, chan: Flags, bot: Flags) -> bool
        ensures { result ≡ is_forbidden self.now global chan bot }
    {
        self.global.forbidden.shares(global)
            || self.chan.forbidden.shares(chan)
            || self.bot.forbidden.shares(bot)
    }

    // Whether no part wants a letter.
    fn wants_nothing(&self) -> bool
        ensures { result ≡ wants_nothing self.now }
    {
        self.global.wanted.bits() == 0
            && self.chan.wanted.bits() == 0
            && self.bot.wanted.bits() == 0
    }
}

// Why a text is not an expression.
#[tactic(auto, unfolding(crate::specs::Faults::expression_fault))]
fn fault_of(text: &[u8]) -> Option<FlagFault>
    ensures { result ≡ expression_fault text.now }
{
    if is_lone(b'*', text) {
        return None;
    }
    if !have_place(text) {
        return Some(FlagFault::BadLetter);
    }
    if text.contains(&b'|') && text.contains(&b'&') {
        return Some(FlagFault::MixedJoin);
    }
    if count_joins(text) > 2 {
        return Some(FlagFault::TooManyParts);
    }
    None
}

// Whether each of these bytes may stand in an expression.
fn have_place(text: &[u8]) -> bool
    ensures { result ≡ list_all has_place text.now }
{
    for byte in text {
        if !has_place(*byte) {
            return false;
        }
    }
    true
}

// The number of joins.
fn count_joins(text: &[u8]) -> usize
    ensures { result ≡ count_by is_join text.now }
{
    text.iter().filter(|b| is_join(**b)).count()
}

// Whether this byte may stand in an expression other than `*` alone.
fn has_place(byte: u8) -> bool
    ensures { result ≡ has_place byte }
{
    byte.is_ascii_alphabetic() || byte == b'+' || byte == b'-' || is_join(byte)
}

// Whether a byte joins two parts.
fn is_join(byte: u8) -> bool
    ensures { result ≡ is_join byte }
{
    byte == b'|' || byte == b'&'
}

// Splits a text at its first join: what is before it, and what is after it.
fn cut(text: &[u8]) -> (&[u8], &[u8])
    ensures before { result.0.now ≡ before_first is_join text.now }
    ensures after { result.1.now ≡ after_first is_join text.now }
{
    let at = first_join(text);
    if at == text.len() {
        return (text, &[]);
    }
    (&text[..at], &text[at + 1..])
}

// The index of the first join, or the length if there is none.
fn first_join(text: &[u8]) -> usize
    ensures at { result ≡ position_or_len is_join text.now }
    ensures within { result ≤ length text.now }
{
    for (at, byte) in text.iter().enumerate() {
        if is_join(*byte) {
            return at;
        }
    }
    text.len()
}

// The letters of a part, by the sign that holds for each.
#[tactic(auto, unfolding(crate::specs::Expression::part_of))]
fn part_of(bytes: &[u8]) -> Part
    ensures { result ≡ part_of bytes.now }
{
    let mut wanted = Flags::empty();
    let mut forbidden = Flags::empty();
    let mut sign = b'+';
    for byte in bytes {
        if *byte == b'+' || *byte == b'-' {
            sign = *byte;
        } else if sign == b'+' {
            wanted = wanted.with(*byte);
        } else {
            forbidden = forbidden.with(*byte);
        }
    }
    Part { wanted, forbidden }
}

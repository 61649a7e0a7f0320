// What the lines say that are about the net: which bot it is, which hubs it tries, and which leaves may do less.
ghost use Rattle.std.specs.Prelude.{◌≡◌, IfOk};
ghost use Rattle.settings.specs.Grammar.{bot_numbered, bot_of, bot_said, hub_said, leaf_found, leaf_said, listen_said};
ghost use Rattle.settings.specs.Grammar.{page_placed, page_said, rule_named};

use crate::MAX_LEAVES;
use crate::address::{is_address, is_loopback};
use crate::advice::SettingAdvice;
use crate::cutting::cut_word;
use crate::numeral::{number, port};
use crate::plus::{has_plus, is_reached, without_plus};
use crate::saying::{SettingSaying, pass_of};
use crate::setting_word::SettingWord;
use crate::settings::{Address, LeafRule, PageSetting, Station};
use bytetext::{NoMemory, Text};
use std::alloc::Global;

pub(crate) fn bot_said(rest: &[u8]) -> SettingSaying
    ensures { result ≡ bot_said rest.now }
{
    let cut = cut_word(rest);
    bot_of(cut.word, cut.rest)
}

// `of LEAVES`, after a number.
fn bot_of(numeral: &[u8], rest: &[u8]) -> SettingSaying
    ensures { result ≡ bot_of numeral.now rest.now }
{
    let of = cut_word(rest);
    let leaves = cut_word(of.rest);
    if of.word != b"of".as_slice() || !leaves.rest.is_empty() {
        return SettingSaying::Wrong(SettingAdvice::Form(SettingWord::Bot));
    }
    bot_numbered(number(numeral), number(leaves.word))
}

fn bot_numbered(number: Option<u16>, leaves: Option<u16>) -> SettingSaying
    ensures { result ≡ bot_numbered number leaves }
{
    let (Some(number), Some(leaves)) = (number, leaves) else {
        return SettingSaying::Wrong(SettingAdvice::Form(SettingWord::Bot));
    };
    if number <= leaves && leaves <= MAX_LEAVES {
        SettingSaying::Bot(Station { number, leaves })
    } else {
        SettingSaying::Wrong(SettingAdvice::Leaves)
    }
}

pub(crate) fn hub_said(alloc: Global, rest: &[u8]) -> Result<SettingSaying, NoMemory>
    ensures { IfOk result (λ saying. saying ≡ hub_said rest.now) }
{
    let host = cut_word(rest);
    let numeral = cut_word(host.rest);
    if host.rest.is_empty() || !numeral.rest.is_empty() {
        return Ok(SettingSaying::Wrong(SettingAdvice::Form(SettingWord::Hub)));
    }
    let Some(port) = port(without_plus(numeral.word)) else {
        return Ok(SettingSaying::Wrong(SettingAdvice::Port));
    };
    let tls = has_plus(numeral.word);
    if !is_reached(host.word, tls) {
        return Ok(SettingSaying::Wrong(SettingAdvice::TlsHost));
    }
    let host = Text::from_slice(alloc, host.word)?;
    Ok(SettingSaying::Hub(Address { host, port, tls }))
}

// `N reads` or `N persons`, of a leaf.
pub(crate) fn leaf_said(rest: &[u8]) -> SettingSaying
    ensures { result ≡ leaf_said rest.now }
{
    let leaf = cut_word(rest);
    let rule = cut_word(leaf.rest);
    if !rule.rest.is_empty() {
        return SettingSaying::Wrong(SettingAdvice::Form(SettingWord::Leaf));
    }
    leaf_found(number(leaf.word), rule_named(rule.word))
}

fn leaf_found(leaf: Option<u16>, rule: Option<LeafRule>) -> SettingSaying
    ensures { result ≡ leaf_found leaf rule }
{
    let (Some(leaf), Some(rule)) = (leaf, rule) else {
        return SettingSaying::Wrong(SettingAdvice::Form(SettingWord::Leaf));
    };
    SettingSaying::Leaf { leaf, rule }
}

// What a leaf may do, by the word for it.
fn rule_named(word: &[u8]) -> Option<LeafRule>
    ensures { result ≡ rule_named word.now }
{
    if word == b"reads".as_slice() {
        Some(LeafRule::Reads)
    } else if word == b"persons".as_slice() {
        Some(LeafRule::Persons)
    } else {
        None
    }
}

pub(crate) fn listen_said(alloc: Global, rest: &[u8]) -> Result<SettingSaying, NoMemory>
    ensures { IfOk result (λ saying. saying ≡ listen_said rest.now) }
{
    let host = cut_word(rest);
    let numeral = cut_word(host.rest);
    if host.rest.is_empty() || !numeral.rest.is_empty() {
        return Ok(SettingSaying::Wrong(SettingAdvice::Form(SettingWord::Listen)));
    }
    let Some(port) = port(without_plus(numeral.word)) else {
        return Ok(SettingSaying::Wrong(SettingAdvice::Port));
    };
    if !is_address(host.word) {
        return Ok(SettingSaying::Wrong(SettingAdvice::Address));
    }
    let tls = has_plus(numeral.word);
    let host = Text::from_slice(alloc, host.word)?;
    Ok(SettingSaying::Listen(Address { host, port, tls }))
}

pub(crate) fn page_said(alloc: Global, rest: &[u8]) -> Result<SettingSaying, NoMemory>
    ensures { IfOk result (λ saying. saying ≡ page_said rest.now) }
{
    let host = cut_word(rest);
    let numeral = cut_word(host.rest);
    if host.rest.is_empty() {
        return Ok(SettingSaying::Wrong(SettingAdvice::Form(SettingWord::Page)));
    }
    match port(numeral.word) {
        Some(port) => page_placed(alloc, host.word, port, numeral.rest),
        None => Ok(SettingSaying::Wrong(SettingAdvice::Port)),
    }
}

// A page at `host` and `port`, and the file of its password, which may be left out.
fn page_placed(
    alloc: Global,
    host: &[u8],
    port: u16,
    file: &[u8],
) -> Result<SettingSaying, NoMemory>
    ensures { IfOk result (λ saying. saying ≡ page_placed host.now port file.now) }
{
    if !is_address(host) {
        return Ok(SettingSaying::Wrong(SettingAdvice::PageAddress));
    }
    if file.is_empty() && !is_loopback(host) {
        return Ok(SettingSaying::Wrong(SettingAdvice::PagePassword));
    }
    let host = Text::from_slice(alloc, host)?;
    let password = pass_of(alloc, file)?;
    let address = Address {
        host,
        port,
        tls: false,
    };
    Ok(SettingSaying::Page(PageSetting { address, password }))
}

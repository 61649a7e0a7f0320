// Flags: `flagexpr`.
use flagexpr::{FlagFault, Flags};

#[test]
fn flags_are_letters(rt: HostRuntime) {
    let flags = Flags::parse(b"oZoa").expect(&rt, "flags");
    assert!(rt; flags.has(b'o') && flags.has(b'Z') && !flags.has(b'O') && !flags.has(b'-'));
    assert!(rt; flags.bits() == 1 | 1 << 14 | 1 << 51);
    assert!(rt; Flags::from_bits(1 | 1 << 14 | 1 << 51) == Some(flags));
    assert!(rt; Flags::from_bits(1 << 52).is_none());
}

#[test]
fn a_text_without_letters_is_empty_or_refused(rt: HostRuntime) {
    assert!(rt; Flags::empty().is_empty());
    for text in [b"-".as_slice(), b""] {
        assert!(rt; Flags::parse(text) == Ok(Flags::empty()));
    }
    for text in [b"o1", b"[a"] {
        assert!(rt; Flags::parse(text) == Err(FlagFault::BadLetter));
    }
}

#[test]
fn flags_print_small_letters_first(rt: HostRuntime) {
    let flags = Flags::parse(b"ZoAa").expect(&rt, "flags");
    let text = flags.text(rt.alloc()).expect(&rt, "memory");
    assert!(rt; text.is_same(b"aoAZ"));
}

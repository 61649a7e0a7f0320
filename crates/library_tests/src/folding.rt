// Casemapping: `rfccase`.
use bytetext::{NoMemory, TryCopy};
use indexmap::IndexMap;
use rfccase::{FoldKey, ShortFold, fold, fold_slice, is_channel_name};
use std::alloc::Global;
use std::cmp::Ordering;

#[test]
fn braces_are_the_lower_case_of_brackets(rt: HostRuntime) {
    assert!(rt; fold(b'~') == b'^' && fold(b'[') == b'{' && fold(b'Z') == b'z');
    assert!(rt; fold(0xc4) == 0xc4, "a byte above 127 has no case");
    let mut room = *b"A^~";
    fold_slice(&mut room);
    assert!(rt; room == *b"a^^");
}

fn keys_of_the_same_text_are_equal(alloc: Global) -> Result<bool, NoMemory> {
    let key = FoldKey::new(alloc, b"Nick[a]\\~")?;
    let other = FoldKey::new(alloc, b"nick{a}|^")?;
    Ok(key == other && key.copy(alloc)? == key && key.as_bytes() == b"nick{a}|^".as_slice())
}

fn keys_are_ordered_by_lower_case(alloc: Global) -> Result<bool, NoMemory> {
    let bracket = FoldKey::new(alloc, b"[")?;
    let letter = FoldKey::new(alloc, b"Z")?;
    Ok(
        bracket.cmp(&letter) == Ordering::Greater
            && letter.partial_cmp(&bracket) == Some(Ordering::Less),
    )
}

fn a_map_finds_a_key_in_other_letters(alloc: Global) -> Result<bool, NoMemory> {
    let mut map = IndexMap::new(alloc);
    map.insert(FoldKey::new(alloc, b"Egg")?, 1u8)?;
    map.insert(FoldKey::new(alloc, b"eGG")?, 2u8)?;
    map.insert(FoldKey::new(alloc, b"Ham")?, 3u8)?;
    Ok(map.len() == 2 && map.get(&FoldKey::new(alloc, b"EGG")?) == Some(&2u8))
}

#[test]
fn keys_stand_for_lower_cases(rt: HostRuntime) {
    assert!(rt; keys_of_the_same_text_are_equal(rt.alloc()) == Ok(true));
    assert!(rt; keys_are_ordered_by_lower_case(rt.alloc()) == Ok(true));
    assert!(rt; a_map_finds_a_key_in_other_letters(rt.alloc()) == Ok(true));
}

#[test]
fn a_short_fold_has_its_room(rt: HostRuntime) {
    let held = ShortFold::<3>::new(b"Eg[");
    assert!(rt; held.is_some_and(|held| held.copy().as_bytes() == b"eg{".as_slice()));
    assert!(rt; ShortFold::<3>::new(b"Eggs").is_none());
}

#[test]
fn a_channel_name_has_a_mark_and_no_space_or_comma(rt: HostRuntime) {
    let long = [b'#'; 101];
    assert!(rt;
        is_channel_name(b"#egg") && is_channel_name(b"&a[1]") && is_channel_name(&long[1..])
    );
    for text in [b"".as_slice(), b"egg", b"#a b", b"#a,b", b"#a\x07", &long] {
        assert!(rt; !is_channel_name(text), "{text:?}");
    }
}

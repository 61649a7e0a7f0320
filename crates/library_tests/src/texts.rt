// Texts and lists: `bytetext`.
use bytetext::{NoMemory, Seq, Text, Texts, TryCopy, copies_of};
use std::alloc::Global;

// Makes a list of two words.
fn words(alloc: Global) -> Result<Texts, NoMemory> {
    let mut words = Seq::empty(alloc);
    words.push(Text::from_slice(alloc, b"egg")?)?;
    words.push(Text::empty(alloc))?;
    Ok(words)
}

fn are_words(words: &[Text]) -> bool {
    matches!(words, [first, second] if first.is_same(b"egg") && second.is_empty())
}

fn a_list_and_its_copy_hold_the_words(alloc: Global) -> Result<bool, NoMemory> {
    let words = words(alloc)?;
    let twin = words.copy(alloc)?;
    Ok(words.len() == 2 && are_words(words.as_slice()) && are_words(twin.as_slice()))
}

fn a_list_gives_back_its_vec(alloc: Global) -> Result<bool, NoMemory> {
    let items = words(alloc)?.into_vec();
    let copies = copies_of(alloc, items.as_slice())?;
    Ok(are_words(Seq::new(copies).as_slice()))
}

fn a_text_gives_back_its_vec(alloc: Global) -> Result<bool, NoMemory> {
    let text = Text::from_slice(alloc, b"egg")?.copy(alloc)?;
    Ok(text.len() == 3 && Text::new(text.into_vec()).as_bytes() == b"egg".as_slice())
}

#[test]
fn texts_and_lists_are_what_they_were_made_of(rt: HostRuntime) {
    assert!(rt; a_list_and_its_copy_hold_the_words(rt.alloc()) == Ok(true));
    assert!(rt; a_list_gives_back_its_vec(rt.alloc()) == Ok(true));
    assert!(rt; a_text_gives_back_its_vec(rt.alloc()) == Ok(true));
}

// Lists of names, as servers write them.
ghost use Rattle.std.specs.Prelude.{◌≡◌, ◌≤◌, None, Some, IsTrue, MatchOption, length};
ghost use Rattle.registration.specs.Lists.{begins_item, ends_item, has_item, item_tail, tail_after};

// Whether a list, in which `between` stands between two items, has an item of this name. A value may follow the name
// after '='.
pub(crate) fn has_item(between: u8, name: &[u8], list: &[u8]) -> bool
    ensures { result ≡ has_item between name.now list.now }
{
    item_tail(between, name, list).is_some()
}

// What follows the name of the first such item.
pub(crate) fn item_tail<'a>(between: u8, name: &[u8], list: &'a [u8]) -> Option<&'a [u8]>
    ensures { MatchOption result (item_tail between name.now list.now ≡ None) (λ tail. item_tail between name.now list.now ≡ Some tail.now) }
{
    if begins_item(between, name, list) {
        Some(&list[name.len()..])
    } else {
        tail_after(between, name, list)
    }
}

// What follows the name of the first such item that stands after `between`.
fn tail_after<'a>(between: u8, name: &[u8], list: &'a [u8]) -> Option<&'a [u8]>
    ensures { MatchOption result (tail_after between name.now list.now ≡ None) (λ tail. tail_after between name.now list.now ≡ Some tail.now) }
{
    for (i, byte) in list.iter().enumerate() {
        let rest = &list[i + 1..];
        if *byte == between && begins_item(between, name, rest) {
            return Some(&rest[name.len()..]);
        }
    }
    None
}

// Whether a list begins with an item of this name.
fn begins_item(between: u8, name: &[u8], list: &[u8]) -> bool
    ensures item { result ≡ begins_item between name.now list.now }
    ensures room { IsTrue result → length name.now ≤ length list.now }
{
    if list.len() < name.len() {
        return false;
    }
    let (front, back) = list.split_at(name.len());
    front == name && ends_item(between, back)
}

// Whether an item's name ends here.
fn ends_item(between: u8, tail: &[u8]) -> bool
    ensures { result ≡ ends_item between tail.now }
{
    match tail {
        [] => true,
        [byte, ..] => *byte == between || *byte == b'=',
    }
}

// Makes a map of users from a list.
ghost use Rattle.std.specs.Prelude.{◌≡◌, ◌<◌, false, length, IsTrue, IfErr, IfOk};
ghost use Rattle.std.specs.List.{list_all};
ghost use Rattle.userfile.specs.Keys.{IsKeyed};
ghost use Rattle.userfile.specs.Together.{is_user, repeats_handle};
ghost use Rattle.indexmap.specs.IndexMap.{values};

use crate::user::User;
use bytetext::{NoMemory, TryCopy};
use indexmap::IndexMap;
use rfccase::fold_text;
use std::alloc::Global;

// The map of these users, in their order.
pub(crate) fn map_of(alloc: Global, users: Vec<User>) -> Result<IndexMap<Vec<u8>, User>, NoMemory>
    requires good { IsTrue (list_all is_user users.items) }
    requires apart { repeats_handle users.items ≡ false }
    ensures keyed { IfOk result (λ map. IsKeyed map.entries) }
    ensures users { IfOk result (λ map. values map ≡ users.items) }
    ensures memory { IfErr result (λ _. 0 < length users.items) }
{
    let mut map = IndexMap::new(alloc);
    for user in users {
        let key = fold_text(alloc, user.handle.as_bytes())?;
        map.insert(key, user)?;
    }
    Ok(map)
}

// Copies of the map's users, in their order.
pub(crate) fn user_copies(
    alloc: Global,
    users: &IndexMap<Vec<u8>, User>,
) -> Result<Vec<User>, NoMemory>
    ensures { IfOk result (λ copies. copies.items ≡ values users.now) }
{
    let mut copies = Vec::with_capacity(alloc, users.len())?;
    for user in users.values() {
        copies.push(user.copy(alloc)?)?;
    }
    Ok(copies)
}

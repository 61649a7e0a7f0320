// The sum of a userfile's records.
ghost use Rattle.std.specs.Prelude.{◌≡◌, ◌++◌, ◌∷◌, ◌+◌, ◌<◌, ℕ, List, true, false, take, length, IfOk, IfErr, OnOk, OnErr};
ghost use Rattle.hex.specs.Hex.{encode_lower};
ghost use Rattle.sha2.specs.Hashers.{Holds256};
ghost use Rattle.userfile.specs.Together.{is_user, is_good_ban, is_over};
ghost use Rattle.usercodec.specs.Records.{user_bytes, held_ban_bytes};
ghost use Rattle.recordsums.specs.RecordSums.{bans_spelled, sum_of, users_spelled};

use bytetext::NoMemory;
use hex::encode_to_slice;
use sha2::{Digest as _, Sha256};
use std::alloc::Global;
use usercodec::{put_ban, put_user};
use userfile::{Ban, User, Userfile};

/// Returns the sum of all records of `userfile`: the first 16 digits of their SHA-256.
///
/// # Errors
/// `NoMemory` if the bytes of a record cannot be allocated: never if there are no records.
pub fn sum_of(alloc: Global, userfile: &Userfile) -> Result<[u8; 16], NoMemory>
    ensures sum { IfOk result (λ sum. sum ≡ sum_of userfile.now) }
    ensures memory { IfErr result (λ _. 0 < length userfile.now.users + length userfile.now.bans) }
{
    let mut hasher = Sha256::new();
    add_users(alloc, &mut hasher, userfile)?;
    add_bans(alloc, &mut hasher, userfile)?;
    Ok(digits_of(hasher.finalize()))
}

fn add_users(alloc: Global, hasher: &mut Sha256, userfile: &Userfile) -> Result<(), NoMemory>
    ensures added { OnOk result ((m : List ℕ) → Holds256 hasher.old m → Holds256 hasher.new (m ++ users_spelled userfile.now.users)) }
    ensures memory { OnErr result (0 < length userfile.now.users) }
{
    userfile.are_sound();
    for place in 0..userfile.user_count() {
        let Some(user) = userfile.user_at(place) else {
            return Ok(());
        };
        add_user(alloc, hasher, user)?;
    }
    Ok(())
}

fn add_bans(alloc: Global, hasher: &mut Sha256, userfile: &Userfile) -> Result<(), NoMemory>
    ensures added { OnOk result ((m : List ℕ) → Holds256 hasher.old m → Holds256 hasher.new (m ++ bans_spelled userfile.now.bans)) }
    ensures memory { OnErr result (0 < length userfile.now.bans) }
{
    userfile.are_sound();
    for place in 0..userfile.ban_count() {
        let Some(ban) = userfile.ban_at(place) else {
            return Ok(());
        };
        add_ban(alloc, hasher, ban)?;
    }
    Ok(())
}

fn add_user(alloc: Global, hasher: &mut Sha256, user: &User) -> Result<(), NoMemory>
    requires own { is_user user.now ≡ true }
    requires few { is_over user.now ≡ false }
    ensures { OnOk result ((m : List ℕ) → Holds256 hasher.old m → Holds256 hasher.new (m ++ 3 ∷ user_bytes user.now)) }
{
    let mut bytes = Vec::new(alloc);
    put_user(&mut bytes, user)?;
    hasher.update(bytes.as_slice());
    Ok(())
}

fn add_ban(alloc: Global, hasher: &mut Sha256, ban: &Ban) -> Result<(), NoMemory>
    requires { is_good_ban ban.now ≡ true }
    ensures { OnOk result ((m : List ℕ) → Holds256 hasher.old m → Holds256 hasher.new (m ++ 4 ∷ held_ban_bytes ban.now)) }
{
    let mut bytes = Vec::new(alloc);
    put_ban(&mut bytes, ban)?;
    hasher.update(bytes.as_slice());
    Ok(())
}

// The first eight bytes of a digest as hexadecimal digits.
fn digits_of(digest: [u8; 32]) -> [u8; 16]
    ensures { result ≡ encode_lower (take 8 digest) }
{
    let mut digits = [0; 16];
    encode_to_slice(&digest[..8], &mut digits).unwrap();
    digits
}

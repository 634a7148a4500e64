//! The keys of an object.
ghost use Rattle.std.specs.Prelude.{◌≡◌, ◌==◌, ◌<◌, ◌++◌, ◌∷◌, [], false, ℕ, List, length, IfSome, IsTrue};
ghost use Rattle.std.specs.List.{list_any};
ghost use Rattle.event_text.specs.Written.{BeginsKey, hash_from};

use crate::string::after_string;
use arrayvec::ArrayVec;

/// The most keys that an object may have.
const MOST_KEYS: usize = 64;

/// The hashes of the keys so far.
pub(crate) type Hashes = ArrayVec<u32, MOST_KEYS>;

/// Adds the hash. Does nothing if it is there already, or if there is no room.
pub(crate) fn add(hashes: &mut Hashes, hash: u32) -> bool
    ensures other { IsTrue result → list_any (λ h. h == hash) hashes.old.items ≡ false }
    ensures added { IsTrue result → hashes.new.items ≡ hashes.old.items ++ hash ∷ [] }
{
    if hashes.as_slice().contains(&hash) {
        return false;
    }
    hashes.try_push(hash).is_ok()
}

/// The hash of a key, and what follows its colon. The key begins after its first quotation mark.
pub(crate) fn after_key(bytes: &[u8]) -> Option<(u32, &[u8])>
    ensures key { IfSome result (λ r. BeginsKey r.0 bytes.now r.1.now) }
    ensures shorter { IfSome result (λ r. length r.1.now < length bytes.now) }
{
    let rest = after_string(bytes)?;
    let (key, _) = bytes.split_at(bytes.len() - rest.len());
    match rest {
        [b':', value @ ..] => Some((hash_of(key), value)),
        _ => None,
    }
}

/// The hash of bytes: FNV, with a sum in place of the exclusive or.
fn hash_of(bytes: &[u8]) -> u32
    ensures { result ≡ hash_from 0 bytes.now }
{
    let mut hash: u64 = 0;
    for byte in bytes {
        hash = (hash * 16_777_619 + u64::from(*byte)) % 4_294_967_296;
    }
    hash as u32
}

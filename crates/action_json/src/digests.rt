//! Digests of what actions name, by which a list of actions is seen to have no double without a set of names.
ghost use Rattle.std.specs.Prelude.{◌≡◌, ◌==◌, ◌↔◌, IfOk, IsTrue};
ghost use Rattle.std.specs.List.{IsDistinct};
ghost use Rattle.action_types.specs.Files.{file};
ghost use Rattle.action_json.specs.Digests.{digest, digest_of, digested, file_digest, fnv_step, word_step};

use action_types::{Action, Name, Vector};
use std::alloc::{AllocError, Global};

/// The digest of what the action names: actions that name the same have the same digest. Refused for want of memory alone.
#[tactic(auto, unfolding(crate::specs::Digests::digest_of))]
pub fn digest_of(alloc: Global, action: &Action) -> Result<u64, AllocError>
    ensures { IfOk result (λ d. d ≡ digest_of action.now) }
{
    match action {
        Action::Info(_) => Ok(digest(1, &[])),
        Action::Protocol(_) => Ok(digest(2, &[])),
        Action::Meta(_) => Ok(digest(3, &[])),
        Action::Txn(txn) => Ok(digest(4, txn.app.as_str().as_bytes())),
        Action::Domain(domain) => Ok(digest(6, domain.domain.as_str().as_bytes())),
        Action::Remove(remove) => file_digest(alloc, &remove.path, &remove.vector),
        Action::Add(add) => file_digest(alloc, &add.path, &add.vector),
    }
}

/// The digest of a file: that of its path and, where it has a vector, of a byte that no text has and of the unique id.
#[tactic(auto, unfolding(crate::specs::Digests::file_digest, crate::specs::Digests::vector_digest))]
fn file_digest(alloc: Global, path: &Name, vector: &Option<Vector>) -> Result<u64, AllocError>
    ensures { IfOk result (λ d. d ≡ file_digest (file path.now vector.now)) }
{
    let hash = digest(5, path.as_str().as_bytes());
    match vector {
        None => Ok(hash),
        Some(vector) => {
            let id = vector.unique_id(alloc)?;
            Ok(digested(fnv_step(hash, 255), id.as_str().as_bytes()))
        }
    }
}

/// The digest of a byte for what the key is of, and then of the key.
#[tactic(auto, unfolding(crate::specs::Digests::digest))]
fn digest(tag: u8, key: &[u8]) -> u64
    ensures { result ≡ digest tag key.now }
{
    digested(fnv_step(0xcbf29ce484222325, tag), key)
}

/// The rounds of more bytes: one for each eight of them, and one for each byte that is left.
#[tactic(auto, unfolding(crate::specs::Digests::digested))]
fn digested(mut hash: u64, bytes: &[u8]) -> u64
    ensures { result ≡ digested hash bytes.now }
{
    let (words, rest) = bytes.as_chunks::<8>();
    for word in words {
        hash = word_step(hash, *word);
    }
    for byte in rest {
        hash = fnv_step(hash, *byte);
    }
    hash
}

/// The round of eight bytes, whose high bits count in the low bits of later rounds too.
fn word_step(hash: u64, word: [u8; 8]) -> u64
    ensures { result ≡ word_step hash word }
{
    let product = (hash ^ u64::from_le_bytes(word)).wrapping_mul(0x9e3779b97f4a7c15);
    product ^ (product >> 32)
}

/// One round of FNV-1a.
fn fnv_step(hash: u64, byte: u8) -> u64
    ensures { result ≡ fnv_step hash byte }
{
    (hash ^ u64::from(byte)).wrapping_mul(0x100000001b3)
}

/// Whether no two of the digests are equal.
pub fn are_distinct(mut digests: Vec<u64>) -> bool
    ensures { IsTrue result ↔ IsDistinct ◌==◌ digests.items }
{
    digests.sort_unstable();
    digests.is_sorted_by(|x, y| x < y)
}

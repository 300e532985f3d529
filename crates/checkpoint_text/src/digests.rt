//! The digest of the texts that a checkpoint goes with, and its text.

ghost use Rattle.std.specs.Prelude.{◌≡◌, MatchOption};
ghost use Rattle.hex.specs.Hex.{encode_lower};
ghost use Rattle.checkpoint_text.specs.Sources.{digest_of_sources};
ghost use Rattle.checkpoint_text.specs.Numbers.{IsNoDigest};

use hex::FromHex;
use sha2::{Digest, Sha256};

/// The digest of an ontology's text and of the queries' text. Takes no memory.
pub fn sources_digest(ontology: &[u8], queries: &[u8]) -> [u8; 32]
    ensures { result ≡ digest_of_sources ontology.now queries.now }
{
    let mut hasher = Sha256::new();
    hasher.update((ontology.len() as u64).to_be_bytes());
    hasher.update(ontology);
    hasher.update(queries);
    hasher.finalize()
}

/// The digest in lower-case hexadecimal digits. Takes no memory.
pub fn digest_text(digest: &[u8; 32]) -> [u8; 64]
    ensures { result ≡ encode_lower digest.now }
{
    let mut text = [0u8; 64];
    let _ = hex::encode_to_slice(digest.as_slice(), &mut text);
    text
}

/// The digest whose text this is. Takes no memory.
pub fn read_digest(text: &[u8]) -> Option<[u8; 32]>
    ensures { MatchOption result (IsNoDigest text.now) (λ digest. text.now ≡ encode_lower digest) }
{
    let Ok(digest) = <[u8; 32] as FromHex>::from_hex(text) else {
        return None;
    };
    if digest_text(&digest).as_slice() == text {
        Some(digest)
    } else {
        None
    }
}

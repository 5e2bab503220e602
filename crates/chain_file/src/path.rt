//! Paths, and the words that spell them.
ghost use Rattle.std.specs.Prelude.{◌≡◌, ◌<◌, ◌*◌, ◌++◌, ◌∷◌, [], length, option_map, is_some, IsTrue};
ghost use Rattle.std.specs.Prelude.{IsSome, IfSome, IfOk, OnOk, MatchOption, Some, None, ◌↔◌, false};
ghost use Rattle.chain_file.specs.Words.{IsPath, is_plain};
ghost use Rattle.chain_file.specs.Reading.{hex_in, spelled_in, path_in};

use std::alloc::Global;
use std::marker::Model;
use wall_labels::NoMemory;

/// The path of a file: any bytes, and at least one. Contracts see the bytes.
#[derive(Drop)]
pub struct Path {
    bytes: Vec<u8>,
}

impl Model for Path {
    ghost use Rattle.std.specs.Prelude.{List, ℕ};
    ghost use Rattle.chain_file.specs.Words.{IsPath};

    ghost Value = { List ℕ };

    ghost view = { λ p. p.bytes.items };

    ghost invariant = { λ p. IsPath p.bytes.items };
}

impl Path {
    /// The path of these bytes. None where there are none.
    pub fn new(bytes: Vec<u8>) -> Option<Path>
        ensures some { IsSome result ↔ (0 < length bytes.items) }
        ensures path { IfSome result (λ path. path ≡ bytes.items) }
    {
        if bytes.is_empty() {
            return None;
        }
        Some(Path { bytes })
    }

    pub fn bytes(&self) -> &[u8]
        ensures bytes { result.now ≡ self.now }
        ensures path { IsPath self.now }
    {
        self.bytes.as_slice()
    }
}

// Whether a byte stands for itself in the word of a path.
pub(crate) fn is_plain(byte: u8) -> bool
    ensures { result ≡ is_plain byte }
{
    32 < byte && (byte < 127 && byte != b'%')
}

// Reads a word as the lower-case digits of as many bytes as there is room for.
#[tactic(auto, unfolding(crate::specs::Reading::hex_in))]
fn read_hex(word: &[u8], bytes: &mut [u8], again: &mut [u8]) -> bool
    requires { length again.old ≡ 2 * length bytes.old }
    ensures read { IsTrue result → hex_in (length bytes.old) word.now ≡ Some bytes.new }
    ensures none { result ≡ false → hex_in (length bytes.old) word.now ≡ None }
{
    match hex::decode_to_slice(word, bytes) {
        Err(_) => false,
        Ok(()) => match hex::encode_to_slice(&*bytes, again) {
            Err(_) => unreachable!(),
            Ok(()) => &*again == word,
        },
    }
}

/// The digest that a word spells.
pub(crate) fn read_digest(word: &[u8]) -> Option<[u8; 32]>
    ensures { result ≡ hex_in 32 word.now }
{
    let mut digest = [0u8; 32];
    let mut again = [0u8; 64];
    if read_hex(word, &mut digest, &mut again) {
        Some(digest)
    } else {
        None
    }
}

// The byte of two digits.
fn read_byte(digits: &[u8]) -> Option<u8>
    ensures { MatchOption result (hex_in 1 digits.now ≡ None)
        (λ byte. hex_in 1 digits.now ≡ Some (byte ∷ [])) }
{
    let mut byte = [0u8; 1];
    let mut again = [0u8; 2];
    if read_hex(digits, &mut byte, &mut again) {
        Some(byte[0])
    } else {
        None
    }
}

// The byte that the front of a word spells, and what is behind it.
fn front(word: &[u8]) -> Option<(u8, &[u8])>
    requires { 0 < length word.now }
    ensures byte { MatchOption result (spelled_in word.now ≡ None)
        (λ r. spelled_in word.now ≡ option_map (λ path. r.0 ∷ path) (spelled_in r.1.now)) }
    ensures shorter { IfSome result (λ r. length r.1.now < length word.now) }
{
    let (_, rest) = word.split_at(1);
    if is_plain(word[0]) {
        return Some((word[0], rest));
    }
    if word[0] != b'%' {
        return None;
    }
    if rest.len() < 2 {
        return None;
    }
    let (digits, behind) = rest.split_at(2);
    match read_byte(digits) {
        None => None,
        Some(byte) => {
            if is_plain(byte) {
                return None;
            }
            Some((byte, behind))
        }
    }
}

/// Whether a word spells a path. Takes no memory.
#[tactic(auto, unfolding(crate::specs::Reading::path_in))]
pub(crate) fn is_path(word: &[u8]) -> bool
    ensures { result ≡ is_some (path_in word.now) }
{
    if word.is_empty() {
        return false;
    }
    let mut rest = word;
    while !rest.is_empty() {
        match front(rest) {
            None => return false,
            Some((_, behind)) => rest = behind,
        }
    }
    true
}

/// The path that a word spells.
pub(crate) fn spelled(alloc: Global, word: &[u8]) -> Result<Path, NoMemory>
    requires { IsSome (path_in word.now) }
    ensures { IfOk result (λ path. path_in word.now ≡ Some path) }
{
    let mut bytes = Vec::new(alloc);
    let mut rest = word;
    while !rest.is_empty() {
        match front(rest) {
            None => unreachable!(),
            Some((byte, behind)) => {
                bytes.push(byte)?;
                rest = behind;
            }
        }
    }
    match Path::new(bytes) {
        None => unreachable!(),
        Some(path) => Ok(path),
    }
}

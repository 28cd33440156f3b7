//! How tables of names and numbers hash: by two secret numbers, so that nobody can choose names that meet in
//! one place of a table.
#![tactic(auto)]

ghost use Rattle.std.specs.Prelude.{◌≡◌, [], ◌∷◌};
ghost use Rattle.x_hash.specs.Keys.{folded_product, hashed, key_after, key_of, write};

use indexmap::IndexMap;
use std::hash::{BuildHasher, DefaultHasher, Hasher};
use std::io;
use std::random::RandomSource;

/// A table that hashes by a key.
pub type KeyedTable<K, V> = IndexMap<K, V, HashKey>;

/// What a table hashes by. Who chooses the names of a table must not know its key: it is drawn at random, or
/// made of all that was read before the table is.
#[derive(Clone, Copy)]
pub struct HashKey {
    start: u64,
    factor: u64,
}

impl HashKey {
    /// A key of random bytes of the system.
    ///
    /// # Errors
    ///
    /// The system's, where it has none.
    pub fn drawn(source: &impl RandomSource) -> io::Result<HashKey> {
        let mut bytes = [0; 16];
        source.fill_bytes(&mut bytes)?;
        Ok(HashKey::of_bytes(&bytes))
    }

    /// The key that is made of these bytes, by SipHash-1-3. Other bytes have another key, so names of a text
    /// that meet under the text's own key cannot be chosen one by one.
    pub fn of_bytes(bytes: &[u8]) -> HashKey
        ensures { result ≡ key_of bytes.now }
    {
        let mut hasher = DefaultHasher::new();
        hasher.write(bytes);
        HashKey::of_hasher(hasher)
    }

    /// The key that is made of all that a hasher was fed, as that of bytes is.
    pub fn of_hasher(hasher: DefaultHasher) -> HashKey
        ensures { result ≡ key_after hasher }
    {
        let start = hasher.finish();
        let mut more = hasher;
        more.write_u8(0);
        let factor = more.finish();
        HashKey { start, factor }
    }
}

impl BuildHasher for HashKey {
    type Hasher = KeyedHasher;

    ghost build_hasher = { λ k. record { state = k.start; factor = k.factor } };

    fn build_hasher(&self) -> KeyedHasher {
        KeyedHasher {
            state: self.start,
            factor: self.factor,
        }
    }
}

/// Hashes words one by one: the state and a word, joined by xor, times the factor, with both halves of the
/// product joined by xor. Eight bytes, as a length is written, are one word; else each byte is one.
#[derive(Clone, Copy)]
pub struct KeyedHasher {
    state: u64,
    factor: u64,
}

impl KeyedHasher {
    /// Hashes a word.
    #[inline(always)]
    fn add(&mut self, word: u64)
        ensures { self.new ≡ hashed self.old (word ∷ []) }
    {
        self.state = folded_product(self.state ^ word, self.factor);
    }

    /// Hashes bytes, each as a word.
    #[inline(always)]
    fn add_each(&mut self, bytes: &[u8])
        ensures { self.new ≡ hashed self.old bytes.now }
    {
        for byte in bytes {
            self.add(u64::from(*byte));
        }
    }
}

/// Both halves of a product of 128 bits, joined by xor.
#[inline(always)]
fn folded_product(a: u64, b: u64) -> u64
    ensures { result ≡ folded_product a b }
{
    let product = u128::from(a) * u128::from(b);
    (product & 0xFFFF_FFFF_FFFF_FFFF) as u64 ^ (product >> 64) as u64
}

impl Hasher for KeyedHasher {
    ghost write = { write };

    ghost finish = { λ s. s.state };

    #[inline(always)]
    fn finish(&self) -> u64 {
        self.state
    }

    #[inline(always)]
    fn write(&mut self, bytes: &[u8]) {
        if let Ok(word) = <[u8; 8]>::try_from(bytes) {
            self.add(u64::from_le_bytes(word));
        } else {
            self.add_each(bytes);
        }
    }
}

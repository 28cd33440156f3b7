//! An item as it is kept.
ghost use Rattle.std.specs.Prelude.{◌≡◌, ◌≤◌, IfSome, option_copied};
ghost use Rattle.x_text.specs.declared.text.source.TheConstants.{MAX_TEXT};

use x_text::Measured;

/// An item as it is kept: where its tokens stand follows from the items before it.
#[derive(Debug, Drop)]
pub struct ItemEntry<K> {
    /// How many tokens it has.
    pub tokens: u32,
    /// How many bytes these have, as is said by who keeps something with the item; 0 before.
    pub bytes: u32,
    /// What is kept with it.
    pub kept: K,
}

const _: () = prove!(size_of::<ItemEntry<()>>() == 8);

impl<K: Default> ItemEntry<K> {
    /// The entry of an item of that many tokens, with which nothing is kept yet.
    pub(crate) fn new(tokens: usize) -> ItemEntry<K>
        requires { tokens ≤ MAX_TEXT }
        ensures tokens { result.tokens ≡ tokens }
        ensures blank { K.is_default result.kept }
    {
        ItemEntry {
            tokens: tokens as u32,
            bytes: 0,
            kept: K::default(),
        }
    }
}

impl<K> ItemEntry<K> {
    /// An entry of as many tokens and bytes as this one, with which another thing is kept.
    pub(crate) fn in_place_of(old: Option<&ItemEntry<K>>, kept: K) -> ItemEntry<K>
        ensures tokens { IfSome (option_copied old.entry) (λ entry. result.tokens ≡ entry.tokens) }
        ensures bytes { IfSome (option_copied old.entry) (λ entry. result.bytes ≡ entry.bytes) }
        ensures kept { result.kept ≡ kept }
    {
        let (tokens, bytes) = match old {
            Some(entry) => (entry.tokens, entry.bytes),
            None => (0, 0),
        };
        ItemEntry {
            tokens,
            bytes,
            kept,
        }
    }
}

impl<K> Measured for ItemEntry<K> {
    ghost use Rattle.x_cutting.specs.ItemList.{tokens_in};

    ghost length = { tokens_in };

    fn length(&self) -> usize {
        self.tokens as usize
    }
}

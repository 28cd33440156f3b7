//! What an edit does to the items of a text.
ghost use Rattle.std.specs.Prelude.{◌≡◌, ◌+◌, ◌-◌, ◌<◌, ◌≤◌, ◌∷◌, ◌↔◌, [], All, IfOk, cond, length, drop};
ghost use Rattle.std.specs.Prelude.{slice_get};
ghost use Rattle.x_text.specs.declared.text.source.TheConstants.{MAX_TEXT};
ghost use Rattle.x_text.specs.Edits.{Change};
ghost use Rattle.x_lex.specs.Tiling.{AreTokens, end_of};
ghost use Rattle.x_lex.specs.TokenList.{patched, LiesAmong, IsOfText};
ghost use Rattle.x_cutting.specs.ItemList.{AreOfText, counts, tokens_before};
ghost use Rattle.x_cutting.specs.ItemList as lists;
ghost use Rattle.x_cutting.specs.Cutting.{roles, counts_from};
ghost use Rattle.x_cutting.specs.Recut.{IsRelexed, AreRelexed, IsItemPatch};

use super::cutter::Cutter;
use super::{ItemEntry, ItemPatch, Items};
use std::alloc::Global;
use x_lex::{Kind, Patch, Tokens};
use x_text::{NoMemory, Source};

/// What the edit that makes `new` of the old text, and of whose tokens `patch`, does to the old text's items:
/// those that end before it stay, then come fresh ones, with which nothing is kept yet, up to the first place
/// from which the old ones hold again.
///
/// [`NoMemory`] where memory ran out.
pub fn recut<K: Default + Drop>(
    alloc: Global,
    items: &Items<K>,
    tokens: &Tokens,
    patch: &Patch,
    new: &Source,
) -> Result<ItemPatch<K>, NoMemory>
    requires { AreRelexed new.now tokens.now.list (counts items.now.list) patch.now }
    ensures patch { IfOk result (λ fresh. (change : Change) → IsRelexed change new.now tokens.now.list
        (counts items.now.list) patch.now → IsItemPatch change tokens.now.list
        (patched tokens.now.list patch.now) items.now.list fresh) }
    ensures among { IfOk result (λ fresh. lists.LiesAmong items.now.list fresh) }
    ensures front { IfOk result (λ fresh. fresh.start ≤ patch.now.at) }
    ensures rear { IfOk result (λ fresh. fresh.at + fresh.removed < length items.now.list
        → patch.now.at + patch.now.removed
        ≤ tokens_before (counts items.now.list) (fresh.at + fresh.removed)) }
    ensures of_text { IfOk result (λ fresh. AreOfText (counts (lists.patched items.now.list fresh))) }
    ensures blank { IfOk result (λ fresh. All (λ item. K.is_default item.kept) fresh.fresh) }
{
    let text = new.bytes();
    let (kept, start) = items.whole_within(patch.at(), tokens.len());
    let behind = patch.at() + patch.len();
    let old_behind = patch.at() + patch.removed();
    let mut fresh = Vec::new(alloc);
    let mut index = start;
    let mut place = place_before(tokens, patch, start);
    let mut back = kept;
    let mut back_index = start;
    'cutting: loop {
        if behind <= index {
            let target = old_behind + (index - behind);
            (back, back_index) = items.advance(back, back_index, target);
            // The start of a text is a line start, and a place behind a `;` is none: they don't agree.
            if back_index == target && (index == 0) == (target == 0) {
                return Ok(ItemPatch::new(kept, back - kept, start, fresh));
            }
        }
        let (count, end, whole) = item_from(tokens, patch, text, index, place);
        fresh.push(ItemEntry::new(count))?;
        if !whole {
            return Ok(ItemPatch::new(kept, items.len() - kept, start, fresh));
        }
        index += count;
        place = end;
    }
}

/// Where the token at `index` starts, which is one of those that the patch keeps in front, or the first
/// behind them.
fn place_before(tokens: &Tokens, patch: &Patch, index: usize) -> usize
    requires among { LiesAmong tokens.now.list patch.now }
    requires start { patch.now.start ≡ end_of tokens.now.list patch.now.at }
    requires within { index ≤ patch.now.at }
    ensures { result ≡ end_of tokens.now.list index }
{
    let start = patch.start();
    let mut length = 0;
    for kept in index..patch.at() {
        if let Some((_, bytes)) = tokens.kind_and_length(kept) {
            length += bytes;
        }
    }
    start - length
}

/// The kind and length of the token at `index` of those that the patch leaves.
fn patched_get(tokens: &Tokens, patch: &Patch, index: usize) -> Option<(Kind, usize)>
    requires among { LiesAmong tokens.now.list patch.now }
    requires of_text { IsOfText (patched tokens.now.list patch.now) }
    requires within { index ≤ length (patched tokens.now.list patch.now) }
    ensures { result ≡ slice_get (patched tokens.now.list patch.now) index }
{
    let at = patch.at();
    if index < at {
        return tokens.kind_and_length(index);
    }
    // Its count shows that the sums fit.
    let _count = tokens.len();
    let behind = at + patch.len();
    if index < behind {
        return patch.get(index - at);
    }
    tokens.kind_and_length(at + patch.removed() + (index - behind))
}

/// How many tokens the item has that starts at the token `index`, at `place`, where it ends, and whether it
/// ends with a `;`.
fn item_from(
    tokens: &Tokens,
    patch: &Patch,
    text: &[u8],
    index: usize,
    place: usize,
) -> (usize, usize, bool)
    requires among { LiesAmong tokens.now.list patch.now }
    requires tokens { AreTokens text.now (patched tokens.now.list patch.now) }
    requires small { length text.now ≤ MAX_TEXT }
    requires within { index ≤ length (patched tokens.now.list patch.now) }
    requires place { place ≡ end_of (patched tokens.now.list patch.now) index }
    ensures within { index + result.0 ≤ length (patched tokens.now.list patch.now) }
    ensures place { result.1 ≡ end_of (patched tokens.now.list patch.now) (index + result.0) }
    ensures counts { counts_from 0 0 (drop index (roles text.now (patched tokens.now.list patch.now)))
        ≡ result.0 ∷ cond result.2
        (counts_from 0 0
        (drop (index + result.0) (roles text.now (patched tokens.now.list patch.now))))
        [] }
{
    let mut cutter = Cutter::new();
    let mut count = 0;
    let mut place = place;
    while let Some((kind, length)) = patched_get(tokens, patch, index + count) {
        let end = place + length;
        let ends = cutter.ends(kind, &text[place..end]);
        count += 1;
        place = end;
        if ends {
            return (count, place, true);
        }
    }
    (count, place, false)
}

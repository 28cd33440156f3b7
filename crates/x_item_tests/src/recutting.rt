//! What an edit does to items.
ghost use Rattle.std.specs.Prelude.{◌≡◌, length, OnOk, OnErr};
ghost use Rattle.x_text.specs.Edits.{change_of, edited_by, LiesWithin};
ghost use Rattle.x_lex.specs.Tiling.{AreTokens};
ghost use Rattle.x_lex.specs.Places.{lexemes};
ghost use Rattle.x_cutting.specs.Items.{IsCut};
ghost use Rattle.x_cutting.specs.ItemList.{counts};

use std::alloc::Global;
use std::process::Abort;
use std::test::Fail;
use x_item::{Items, cut, recut};
use x_lex::{Tokens, lex, relex};
use x_text::{Edit, Meter, NoMemory, Source, TextFault};

/// Makes the tokens and items of `old` those of `new`, and answers how many items were recut.
fn follow(
    alloc: Global,
    items: &mut Items<u8>,
    tokens: &mut Tokens,
    old: &Source,
    edit: &Edit,
    new: &Source,
) -> Result<usize, NoMemory>
    requires tokens { AreTokens old.now tokens.old.list }
    requires items { IsCut (lexemes old.now tokens.old.list) (counts items.old.list) }
    requires within { LiesWithin (change_of old.now edit.now) }
    requires edited { new.now ≡ edited_by (change_of old.now edit.now) }
    ensures tokens { OnOk result (AreTokens new.now tokens.new.list) }
    ensures items { OnOk result (IsCut (lexemes new.now tokens.new.list) (counts items.new.list)) }
    ensures no_tokens { OnErr result (tokens.new.list ≡ tokens.old.list) }
    ensures no_items { OnErr result (items.new.list ≡ items.old.list) }
{
    let patch = relex(alloc, tokens, old, edit, new, &mut Meter::new())?;
    let fresh = recut(alloc, items, tokens, &patch, new)?;
    tokens.reserve(&patch)?;
    items.reserve(&fresh)?;
    let count = fresh.len();
    tokens.put(patch);
    items.put(fresh);
    Ok(count)
}

/// Checks how many tokens each item has.
fn expect_items(rt: &impl Abort, items: &Items<u8>, counts: &[u32]) {
    assert!(rt; items.len() == counts.len());
    for (index, count) in counts.iter().enumerate() {
        assert!(rt; items.get(index).map(|item| item.tokens) == Some(*count));
    }
}

/// Follows an edit of a text without a brace that puts it in: the one item, which no `;` ends, becomes three,
/// the last of them empty. Checks after each refusal that the items are as before.
fn follow_with_little_memory(rt: &impl Abort, alloc: Global) -> Result<(), TextFault> {
    let old = Source::from_bytes(alloc, b"struct s { int a; const B = 2;")?;
    let Ok(mut tokens) = lex(alloc, &old, &mut Meter::new()) else {
        return Err(TextFault::NoMemory);
    };
    let Ok(mut items) = cut(alloc, &tokens, &old) else {
        return Err(TextFault::NoMemory);
    };
    expect_items(rt, &items, &[19]);
    let edit = Edit {
        start: 18,
        end: 18,
        insert: b"}; ",
    };
    let new = old.edited(alloc, &edit)?;
    let Ok(count) = follow(alloc, &mut items, &mut tokens, &old, &edit, &new) else {
        expect_items(rt, &items, &[19]);
        return Err(TextFault::NoMemory);
    };
    assert!(rt; count == 3);
    expect_items(rt, &items, &[13, 9, 0]);
    Ok(())
}

#[test]
fn sweep_recut(rt: HostRuntime) -> Result<(), Fail> {
    match follow_with_little_memory(&rt, rt.alloc()) {
        Ok(()) => println!(rt; "nothing was refused")?,
        Err(fault) => assert!(rt; fault == TextFault::NoMemory),
    }
    Ok(())
}

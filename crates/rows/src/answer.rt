//! The answer of a case, by its command.

use crate::case::{Case, Change};
use crate::kept::{Carried, Kept};
use crate::refusal::Refusal;
use std::alloc::{AllocError, Global};
use std::fmt::Write;
use x_cutting::Items;
use x_text::NoMemory;

/// The answer of a case: `bad case` where it can't be read, and `differs` where what should be the same is
/// not.
pub(crate) fn answer(alloc: Global, case: &str) -> Result<String, NoMemory> {
    match answer_case(alloc, case) {
        Ok(answer) => Ok(answer),
        Err(Refusal::BadCase) => Ok(String::from_str(alloc, "bad case")?),
        Err(Refusal::Differs) => Ok(String::from_str(alloc, "differs")?),
        Err(Refusal::NoMemory) => Err(NoMemory),
    }
}

fn answer_case(alloc: Global, case: &str) -> Result<String, Refusal> {
    let Some(case) = Case::read(case) else {
        return Err(Refusal::BadCase);
    };
    let change = case.change(alloc)?;
    match case.command {
        "cut" => counts(alloc, &change),
        "relex" => relexed(alloc, &change),
        "recut" => recut(alloc, &change),
        "patch" => patched(alloc, &change),
        _ => Err(Refusal::BadCase),
    }
}

fn told_counts(alloc: Global, items: &Items<u8>) -> Result<String, AllocError> {
    let mut answer = String::new(alloc);
    for (index, item) in items.iter().enumerate() {
        let space = if index == 0 { "" } else { " " };
        write!(answer, "{space}{}", item.tokens)?;
    }
    Ok(answer)
}

/// `cut TEXT`: how many tokens each item has.
fn counts(alloc: Global, change: &Change) -> Result<String, Refusal> {
    let kept = Kept::of(alloc, change.text())?;
    Ok(told_counts(alloc, kept.items())?)
}

fn forth(alloc: Global, change: &Change) -> Result<Carried, Refusal> {
    let mut kept = Kept::of(alloc, change.text())?;
    kept.take(alloc, &change.edit())
}

fn forth_and_back(alloc: Global, change: &Change) -> Result<(Carried, Carried), Refusal> {
    let mut kept = Kept::of(alloc, change.text())?;
    kept.take_forth_and_back(alloc, change)
}

/// `relex TEXT START END INSERT`: how many tokens are fresh after the edit, and how many where it is taken
/// back, by those lexed.
fn relexed(alloc: Global, change: &Change) -> Result<String, Refusal> {
    let (forth, back) = forth_and_back(alloc, change)?;
    let (fresh, again) = (forth.lexed, back.lexed);
    Ok(format!(in alloc; "fresh {fresh}, back {again}")?)
}

/// `recut TEXT START END INSERT`: the same of items.
fn recut(alloc: Global, change: &Change) -> Result<String, Refusal> {
    let (forth, back) = forth_and_back(alloc, change)?;
    let (fresh, again) = (forth.items.fresh, back.items.fresh);
    Ok(format!(in alloc; "fresh {fresh}, back {again}")?)
}

/// `patch TEXT START END INSERT`: what is put into the tokens and into the items.
fn patched(alloc: Global, change: &Change) -> Result<String, Refusal> {
    let Carried { tokens, items, .. } = forth(alloc, change)?;
    Ok(format!(in alloc; "tokens {tokens}; items {items}")?)
}

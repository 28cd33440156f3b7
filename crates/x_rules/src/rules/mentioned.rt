//! Names that are used.
ghost use Rattle.std.specs.Prelude.{◌≡◌, ◌++◌, map, OnOk};
ghost use Rattle.x_trees.specs.Collected.{view_mention};
ghost use Rattle.x_rules.specs.Mentioned.{suits, may_be_linked, is_declared_as, is_constant, is_no_type};
ghost use Rattle.x_rules.specs.Mentioned.{is_no_constant, is_too_late, is_of_faulty, fault_of_use};
ghost use Rattle.x_rules.specs.Mentioned.{mention_fault};
ghost use Rattle.x_rules.specs.RustViews.{view_view};
ghost use Rattle.x_rules.specs.Tables.{OnNumbers, seen_by};
ghost use Rattle.x_rules.specs.Found.{mention_faults};

use super::constants::{Constants, limit_of};
use super::found::add_fault;
use super::sights::Sights;
use crate::fault::{RuleCode, WordFault};
use crate::views::{Meaning, View};
use x_text::NoMemory;
use x_trees::{Mention, NameKind, Tag, Use};

/// Whether a name that is declared so is the type that is needed.
pub fn suits(tag: Option<Tag>, kind: NameKind) -> bool
    ensures { result ≡ suits tag kind }
{
    match tag {
        None => matches!(
            kind,
            NameKind::Enum | NameKind::Struct | NameKind::Union | NameKind::Typedef
        ),
        Some(Tag::Enum) => matches!(kind, NameKind::Enum),
        Some(Tag::Struct) => matches!(kind, NameKind::Struct),
        Some(Tag::Union) => matches!(kind, NameKind::Union),
    }
}

/// Whether links to what is declared so may look ahead.
fn may_be_linked(kind: NameKind, lifted: bool) -> bool
    ensures { result ≡ may_be_linked kind lifted }
{
    match kind {
        NameKind::Struct | NameKind::Union => !lifted,
        _ => false,
    }
}

/// Whether the name is declared as the type that is needed.
fn is_type(view: View, tag: Option<Tag>) -> bool
    ensures { result ≡ is_declared_as (suits tag) (view_view view.entry) }
{
    match view {
        View::Undeclared => false,
        View::Earlier { kind, .. } => suits(tag, kind),
        View::Own { kind, .. } => suits(tag, kind),
        View::Later { kind, .. } => suits(tag, kind),
    }
}

/// Whether the name is declared as a constant.
fn is_constant(view: View) -> bool
    ensures { result ≡ is_declared_as is_constant (view_view view.entry) }
{
    match view {
        View::Undeclared => false,
        View::Earlier { kind, .. } => matches!(kind, NameKind::Constant),
        View::Own { kind, .. } => matches!(kind, NameKind::Constant),
        View::Later { kind, .. } => matches!(kind, NameKind::Constant),
    }
}

/// Whether a type is needed, and the name is declared as something else.
fn is_no_type(view: View, usage: Use, tag: Option<Tag>) -> bool
    ensures { result ≡ is_no_type (view_view view.entry) usage tag }
{
    match usage {
        Use::Value => false,
        _ => !is_type(view, tag),
    }
}

/// Whether a value is needed, and the name is no constant.
fn is_no_constant(view: View, usage: Use) -> bool
    ensures { result ≡ is_no_constant (view_view view.entry) usage }
{
    match usage {
        Use::Value => !is_constant(view),
        _ => false,
    }
}

/// Whether the name is declared too late for the use. `before` tells whether the item declares it at an
/// earlier word, and not by the very constant whose value this is.
fn is_too_late(view: View, before: bool, usage: Use) -> bool
    ensures { result ≡ is_too_late (view_view view.entry) before usage }
{
    match view {
        View::Own { kind, lifted } => match usage {
            Use::Value => !before,
            Use::ByValue => true,
            Use::Link => !may_be_linked(kind, lifted),
        },
        View::Later { kind, lifted } => match usage {
            Use::Value => true,
            Use::ByValue => true,
            Use::Link => !may_be_linked(kind, lifted),
        },
        _ => false,
    }
}

/// Whether an earlier item with a fault declares the name, and the use cannot do without its meaning.
fn is_of_faulty(view: View, usage: Use) -> bool
    ensures { result ≡ is_of_faulty (view_view view.entry) usage }
{
    match view {
        View::Earlier { meaning, .. } => match meaning {
            Meaning::Bad => match usage {
                Use::Link => false,
                _ => true,
            },
            _ => false,
        },
        _ => false,
    }
}

/// The fault of a use: the first that applies.
fn fault_of_use(view: View, before: bool, usage: Use, tag: Option<Tag>) -> Option<RuleCode>
    ensures { result ≡ fault_of_use (view_view view.entry) before usage tag }
{
    if matches!(view, View::Undeclared) {
        return Some(RuleCode::Unknown);
    }
    if is_no_type(view, usage, tag) {
        return Some(RuleCode::NotType);
    }
    if is_no_constant(view, usage) {
        return Some(RuleCode::NotConst);
    }
    if is_too_late(view, before, usage) {
        return Some(RuleCode::LateName);
    }
    if is_of_faulty(view, usage) {
        return Some(RuleCode::UsesFaulty);
    }
    None
}

/// The fault of a name that is used.
fn mention_fault(mention: &Mention, sights: &Sights, constants: &Constants) -> Option<RuleCode>
    ensures { OnNumbers constants.now (λ all _.
        result ≡ mention_fault (seen_by sights.now) all (view_mention mention.now)) }
{
    let view = sights.see(mention.name);
    let before = matches!(mention.usage, Use::Value)
        && constants.is_declared_before(limit_of(mention.word), mention.name);
    fault_of_use(view, before, mention.usage, mention.tag)
}

/// Adds the faults of names that are used.
pub fn add_mentioned(
    faults: &mut Vec<WordFault>,
    mentions: &[Mention],
    sights: &Sights,
    constants: &Constants,
) -> Result<(), NoMemory>
    ensures { OnOk result (OnNumbers constants.now (λ all _.
        faults.new.items ≡ faults.old.items
        ++ mention_faults (seen_by sights.now) all (map view_mention mentions.now))) }
{
    for mention in mentions {
        let code = mention_fault(mention, sights, constants);
        add_fault(faults, mention.word, code)?;
    }
    Ok(())
}

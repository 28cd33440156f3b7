//! What the parameters of messages about a document say.

ghost use Rattle.std.specs.Prelude.{◌≡◌, IfOk, map, option_map};
ghost use Rattle.serde_json.specs.View.{items_view, view};
ghost use Rattle.x_frames.specs.Params.{changed_version_in, changes_in, document_in, member_of};
ghost use Rattle.x_frames.specs.Params.{position_asked, replacement_of, replacements_in, text_in, uri_in};
ghost use Rattle.x_frames.specs.Params.{version_in, version_or_null};

use crate::changes::{TextChange, position_in, text_change};
use serde_json::Value;
use std::alloc::{AllocError, Global};
use x_positions::Position;

/// The member of a value that has this name, if there are both.
pub fn member<'m>(of: Option<&'m Value>, name: &str) -> Option<&'m Value>
    ensures { option_map (λ v. view v.now) result
        ≡ member_of name.now (option_map (λ v. view v.now) of.entry) }
{
    of?.get(name)
}

/// The document that parameters are about.
fn document_in(params: Option<&Value>) -> Option<&Value>
    ensures { option_map (λ v. view v.now) result ≡ document_in (option_map (λ p. view p.now) params.entry) }
{
    member(params, "textDocument")
}

/// The URI of the document that parameters are about.
pub fn uri_in(params: Option<&Value>) -> Option<&str>
    ensures { option_map (λ u. u.now) result ≡ uri_in (option_map (λ p. view p.now) params.entry) }
{
    member(document_in(params), "uri")?.as_str()
}

/// The text of a document that is opened.
pub(crate) fn text_in(params: Option<&Value>) -> Option<&str>
    ensures { option_map (λ t. t.now) result ≡ text_in (option_map (λ p. view p.now) params.entry) }
{
    member(document_in(params), "text")?.as_str()
}

/// The version of a document that is opened.
pub(crate) fn version_in(params: Option<&Value>) -> Option<i64>
    ensures { result ≡ version_in (option_map (λ p. view p.now) params.entry) }
{
    member(document_in(params), "version")?.as_i64()
}

/// The version of a document that is changed, which may be null.
pub(crate) fn changed_version_in(params: Option<&Value>) -> Option<Option<i64>>
    ensures { result ≡ changed_version_in (option_map (λ p. view p.now) params.entry) }
{
    version_or_null(member(document_in(params), "version")?)
}

/// A version, or null.
fn version_or_null(version: &Value) -> Option<Option<i64>>
    ensures { result ≡ version_or_null (view version.now) }
{
    match version {
        Value::Null => Some(None),
        version => Some(Some(version.as_i64()?)),
    }
}

/// The changes of a document.
pub(crate) fn changes_in(params: Option<&Value>) -> Option<&Vec<Value>>
    ensures { option_map (λ items. items_view items.now.items) result
        ≡ changes_in (option_map (λ p. view p.now) params.entry) }
{
    member(params, "contentChanges")?.as_array()
}

/// The changes that a client describes; none where one of them is not understood.
///
/// # Errors
///
/// [`AllocError`] where the list could not grow.
pub fn text_changes(
    alloc: Global,
    changes: &Vec<Value>,
) -> Result<Option<Vec<TextChange<'_>>>, AllocError>
    ensures { IfOk result (λ found. option_map (λ list. map replacement_of list.items) found
        ≡ replacements_in (items_view changes.now.items)) }
{
    let mut list = Vec::new(alloc);
    for change in changes {
        let Some(change) = text_change(change) else {
            return Ok(None);
        };
        list.push(change)?;
    }
    Ok(Some(list))
}

/// The position that is asked about.
pub fn position_asked(params: Option<&Value>) -> Option<Position>
    ensures { result ≡ position_asked (option_map (λ p. view p.now) params.entry) }
{
    position_in(member(params, "position")?)
}

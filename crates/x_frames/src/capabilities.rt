//! What the server can do.

ghost use Rattle.std.specs.Prelude.{◌≡◌, false, IfOk};
ghost use Rattle.serde_json.specs.View.{view};
ghost use Rattle.serde_json.specs.Written.{has_float};
ghost use Rattle.x_frames.specs.Told.{encoding_name};

use crate::plain_list::PlainList;
use crate::plain_object::PlainObject;
use serde_json::{Map, Value, json};
use std::alloc::{AllocError, Global};
use x_positions::Encoding;
use x_text::NoMemory;

/// The version of the server.
const VERSION: &str = "0.1.0";

/// Changes of a document come as ranges, one after another.
const INCREMENTAL: u32 = 2;

/// The questions that it answers without an option.
const PROVIDERS: [&str; 6] = [
    "definitionProvider",
    "documentHighlightProvider",
    "documentSymbolProvider",
    "foldingRangeProvider",
    "hoverProvider",
    "referencesProvider",
];

/// The types of tokens, in the order of `TokenKind`.
const TOKEN_TYPES: [&str; 11] = [
    "keyword",
    "comment",
    "number",
    "macro",
    "type",
    "struct",
    "enum",
    "enumMember",
    "namespace",
    "method",
    "property",
];

/// What the server can do, as it tells a client that initializes it.
///
/// # Errors
///
/// [`NoMemory`] where the value could not grow.
pub fn capabilities_of(alloc: Global, encoding: Encoding) -> Result<Value, NoMemory>
    ensures { IfOk result (λ v. has_float (view v) ≡ false) }
{
    let mut told = PlainObject::new(alloc);
    told.put(alloc, "capabilities", list(alloc, encoding)?)?;
    told.put(alloc, "serverInfo", server_info(alloc)?)?;
    Ok(told.into_value())
}

/// The server's name and version.
fn server_info(alloc: Global) -> Result<Value, AllocError>
    ensures { IfOk result (λ v. has_float (view v) ≡ false) }
{
    json!(in alloc; {"name": "rpcls", "version": VERSION})
}

/// The list of what the server can do.
fn list(alloc: Global, encoding: Encoding) -> Result<Value, NoMemory>
    ensures { IfOk result (λ v. has_float (view v) ≡ false) }
{
    let mut list = PlainObject::new(alloc);
    list.put_text(alloc, "positionEncoding", name_of(encoding))?;
    list.put(alloc, "completionProvider", Value::Object(Map::new(alloc)))?;
    list.put(alloc, "renameProvider", rename_options(alloc)?)?;
    list.put(alloc, "semanticTokensProvider", tokens_options(alloc)?)?;
    list.put(alloc, "textDocumentSync", sync_options(alloc)?)?;
    for provider in PROVIDERS {
        list.put(alloc, provider, Value::Bool(true))?;
    }
    Ok(list.into_value())
}

/// What an encoding is called.
fn name_of(encoding: Encoding) -> &'static str
    ensures { result.now ≡ encoding_name encoding }
{
    match encoding {
        Encoding::Utf8 => "utf-8",
        Encoding::Utf16 => "utf-16",
    }
}

/// A client may ask for a name before it asks for the change.
fn rename_options(alloc: Global) -> Result<Value, AllocError>
    ensures { IfOk result (λ v. has_float (view v) ≡ false) }
{
    json!(in alloc; {"prepareProvider": true})
}

/// Documents are opened and closed, and changed by ranges.
fn sync_options(alloc: Global) -> Result<Value, AllocError>
    ensures { IfOk result (λ v. has_float (view v) ≡ false) }
{
    json!(in alloc; {"openClose": true, "change": INCREMENTAL})
}

/// All tokens of a document are told at once.
fn tokens_options(alloc: Global) -> Result<Value, NoMemory>
    ensures { IfOk result (λ v. has_float (view v) ≡ false) }
{
    let mut options = PlainObject::new(alloc);
    options.put(alloc, "full", Value::Bool(true))?;
    options.put(alloc, "legend", tokens_legend(alloc)?)?;
    Ok(options.into_value())
}

/// What the numbers of types and modifiers stand for.
fn tokens_legend(alloc: Global) -> Result<Value, NoMemory>
    ensures { IfOk result (λ v. has_float (view v) ≡ false) }
{
    let mut types = PlainList::new(alloc);
    for name in TOKEN_TYPES {
        types.push(Value::String(String::from_str(alloc, name)?))?;
    }
    let mut legend = PlainObject::new(alloc);
    legend.put(alloc, "tokenModifiers", Value::Array(Vec::new(alloc)))?;
    legend.put(alloc, "tokenTypes", types.into_value())?;
    Ok(legend.into_value())
}

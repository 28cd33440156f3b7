//! The names of documents.

ghost use Rattle.std.specs.Prelude.{◌≡◌, IfOk, bytes_eq};
ghost use Rattle.x_documents.specs.DocumentNames.{name_of};

use percent_encoding::percent_decode;
use std::alloc::Global;
use x_text::NoMemory;

/// The name of the document of a URI. Two spellings of one document's URI have one name.
///
/// # Errors
///
/// [`NoMemory`] where the name could not be kept.
pub(crate) fn name_of(alloc: Global, uri: &str) -> Result<Vec<u8>, NoMemory>
    ensures { IfOk result (λ name. name.items ≡ name_of uri.now) }
{
    let mut name = Vec::new(alloc);
    percent_decode(uri.as_bytes()).append_to(&mut name)?;
    Ok(name)
}

/// Whether a document's name is that of a URI. It takes no memory.
pub(crate) fn is_name_of(name: &[u8], uri: &str) -> bool
    ensures { result ≡ bytes_eq name.now (name_of uri.now) }
{
    let mut left = name;
    for byte in percent_decode(uri.as_bytes()) {
        match left.split_first() {
            Some((first, rest)) if *first == byte => left = rest,
            _ => return false,
        }
    }
    left.is_empty()
}

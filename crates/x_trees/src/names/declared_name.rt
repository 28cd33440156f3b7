//! A name that a definition declares.
ghost use Rattle.std.specs.Prelude.{◌≡◌, IfOk};
ghost use Rattle.x_trees.specs.View.{view_body};
ghost use Rattle.x_trees.specs.Gloss.{body_kind, lifted_name};

use crate::trees::Body;
use std::alloc::Global;
use std::borrow::CowSlice;
use x_text::NoMemory;

/// What a name is declared as.
#[derive(Clone, Copy, Debug, PartialEq, Eq)]
pub enum NameKind {
    /// The name of a `const`, or of an enumerator.
    Constant,
    /// The name of an enum.
    Enum,
    /// The name of a struct.
    Struct,
    /// The name of a union.
    Union,
    /// The name of a `typedef`.
    Typedef,
    /// The name of a program.
    Program,
}

impl NameKind {
    /// What the name of a type with such a body is declared as.
    pub(crate) fn of_body(body: &Body) -> NameKind
        ensures { result ≡ body_kind (view_body body.now) }
    {
        match body {
            Body::Enum(_) => NameKind::Enum,
            Body::Struct(_) => NameKind::Struct,
            Body::Union(_) => NameKind::Union,
        }
    }
}

/// A name that a definition declares.
#[derive(Debug, Drop)]
pub struct DeclaredName<'d> {
    /// The name: that in the definition, but for the name of an inline type.
    pub name: CowSlice<'d, u8>,
    /// The word that declares it, counted from 0 among the words of the definition.
    pub word: usize,
    /// What it is declared as.
    pub kind: NameKind,
    /// Whether it is the name of an inline type: that of the type around it, `_`, and that of the declaration
    /// where it stands.
    pub lifted: bool,
}

/// The name of an inline type: that of the type around it, `_`, and that of the declaration where it stands.
///
/// # Errors
///
/// [`NoMemory`] where the name has no room.
pub fn lifted_name(alloc: Global, around: &[u8], name: &[u8]) -> Result<Vec<u8>, NoMemory>
    ensures { IfOk result (λ lifted. lifted.items ≡ lifted_name around.now name.now) }
{
    let length = around.len().saturating_add(1).saturating_add(name.len());
    let mut lifted = Vec::with_capacity(alloc, length)?;
    lifted.extend_from_slice(around)?;
    lifted.push(b'_')?;
    lifted.extend_from_slice(name)?;
    Ok(lifted)
}

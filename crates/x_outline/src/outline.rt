//! What stands in a definition, by its words.

ghost use Rattle.std.specs.Prelude.{◌≡◌, IfOk};
ghost use Rattle.x_trees.specs.View.{view_definition};
ghost use Rattle.x_trees.specs.Spell.{IsShort};
ghost use Rattle.x_outline.specs.Outlines.{IsOutline};

use crate::bodies::bodies_into;
use crate::parts::BodyAt;
use std::alloc::Global;
use x_text::NoMemory;
use x_trees::{DeclaredName, Definition, Glossary, Mention, NoteAt};

/// The names that stand in a definition, and its bodies: what is found of it once, both for its views and for
/// its check.
#[derive(Drop)]
pub struct Outline<'d> {
    pub definition: &'d Definition,
    pub declared: Vec<DeclaredName<'d>>,
    pub mentioned: Vec<Mention<'d>>,
    pub bodies: Vec<BodyAt<'d>>,
    /// What its words are to the rules.
    pub notes: Vec<NoteAt<'d>>,
}

impl<'d> Outline<'d> {
    /// The outline of the definition. It takes time in proportion to it.
    ///
    /// # Errors
    ///
    /// [`NoMemory`] where a list could not grow.
    pub fn of(alloc: Global, definition: &'d Definition) -> Result<Outline<'d>, NoMemory>
        ensures definition { IfOk result (λ outline. outline.definition ≡ definition.entry) }
        ensures outline { IfOk result
            (λ outline. IsShort (view_definition definition.now) → IsOutline outline) }
    {
        let empty = Outline {
            definition,
            declared: Vec::new(alloc),
            mentioned: Vec::new(alloc),
            bodies: Vec::new(alloc),
            notes: Vec::new(alloc),
        };
        empty.again(alloc, definition)
    }

    /// The outline of another definition, in the memory of this one.
    ///
    /// # Errors
    ///
    /// As [`Outline::of`].
    pub fn again(self, alloc: Global, definition: &'d Definition) -> Result<Outline<'d>, NoMemory>
        ensures definition { IfOk result (λ outline. outline.definition ≡ definition.entry) }
        ensures outline { IfOk result
            (λ outline. IsShort (view_definition definition.now) → IsOutline outline) }
    {
        let mut glossary = Glossary {
            declared: self.declared,
            mentioned: self.mentioned,
            notes: self.notes,
        };
        let mut bodies = self.bodies;
        glossary.read(alloc, definition)?;
        bodies_into(alloc, &mut bodies, definition)?;
        Ok(Outline {
            definition,
            declared: glossary.declared,
            mentioned: glossary.mentioned,
            bodies,
            notes: glossary.notes,
        })
    }

    /// The names that the definition declares, in the order of [`x_trees::declares`].
    pub fn declared(&self) -> &[DeclaredName<'d>]
        ensures { result.now ≡ self.now.declared.items }
    {
        &self.declared
    }

    /// The names that the definition uses, in the order of [`x_trees::mentions`].
    pub fn mentioned(&self) -> &[Mention<'d>]
        ensures { result.now ≡ self.now.mentioned.items }
    {
        &self.mentioned
    }
}

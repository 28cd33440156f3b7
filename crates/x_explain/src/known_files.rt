//! The files that are known before a text, and where they declare names.

ghost use Rattle.std.specs.Prelude.{◌≡◌, OnOk, option_map};
ghost use Rattle.x_session.specs.Session.{Compiles};
ghost use Rattle.x_explain.specs.KnownFiles.{no_places, places_of_files, view_first, with_file};

use std::alloc::Global;
use x_session::{DeclaredNames, FirstPlace, Session};
use x_text::NoMemory;

/// Where a name is declared first.
#[derive(Clone, Copy, Debug, PartialEq, Eq)]
pub struct FirstDeclaration<'f> {
    /// The file, where it is one that is known before the text.
    pub file: Option<&'f str>,
    /// The place in that file, or in the text itself.
    pub place: FirstPlace,
}

/// A file that is known before a text, with where it declares its names.
#[derive(Drop)]
struct KnownFile<'s> {
    file: &'s str,
    names: DeclaredNames<'s>,
}

/// The files that are known before a text, in their order.
#[derive(Drop)]
pub struct KnownFiles<'s> {
    list: Vec<KnownFile<'s>>,
}

impl<'s> KnownFiles<'s> {
    /// No file is known.
    pub fn none(alloc: Global) -> KnownFiles<'s>
        ensures { places_of_files result.list.items ≡ no_places }
    {
        KnownFiles {
            list: Vec::new(alloc),
        }
    }

    /// Adds a file behind these, with the session of its text, over which this goes twice.
    ///
    /// # Errors
    ///
    /// [`NoMemory`] where a table could not grow.
    pub fn add(
        &mut self,
        alloc: Global,
        file: &'s str,
        session: &'s Session,
    ) -> Result<(), NoMemory>
        ensures { OnOk result (Compiles session.now.known session.now.text (λ items.
            places_of_files self.new.list.items
            ≡ with_file (places_of_files self.old.list.items) file.now session.now.text items)) }
    {
        let names = DeclaredNames::of(alloc, session)?;
        self.list.push(KnownFile { file, names })?;
        Ok(())
    }

    /// Where a name is declared first, in the first file that declares it.
    pub fn first(&self, name: &[u8]) -> Option<FirstDeclaration<'_>>
        ensures { option_map view_first result ≡ places_of_files self.now.list.items name.now }
    {
        for known in &self.list {
            if let Some(place) = known.names.first(name) {
                return Some(FirstDeclaration {
                    file: Some(known.file),
                    place,
                });
            }
        }
        None
    }
}

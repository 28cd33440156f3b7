//! A text that stays open over what stands before it.

ghost use Rattle.std.specs.Prelude.{◌≡◌, ◌⊎◌, ◌<◌, length, IfOk, IsErrOf, OnErr, OnOk};
ghost use Rattle.x_text.specs.Edits.{change_of, edited_by, Judges};
ghost use Rattle.x_text.specs.Limits.{most_text};
ghost use Rattle.x_session.specs.Session.{Compiles};
ghost use Rattle.x_session.specs.Foreign.{view_all};
ghost use Rattle.x_prelude.specs.Before.{IsBefore, IsCrowded, IsPrelude};
ghost use Rattle.x_prelude.specs.Followed.{IsOver};
ghost use Rattle.x_prelude.specs.Foreign.{AreForeign};
ghost use Rattle.x_prelude.specs.Leading.{IsForeignUse};

use crate::before::{known_of, open_over, open_over_both};
use crate::definition::FromC;
use crate::foreign::foreign_in;
use crate::leading::foreign_use;
use crate::prelude::prelude_of;
use std::alloc::Global;
use x_compile::KnownDefinitions;
use x_hash::HashKey;
use x_session::{EditFault, ForeignName, Session, Spot, Work};
use x_text::{Edit, MAX_TEXT, NoMemory, TextFault};

/// A text that stays open over what stands before it: the text of known files, and then the definitions that
/// the text lacks, as far as they may be taken from C.
#[derive(Drop)]
pub struct FollowedText {
    alloc: Global,
    hash_key: HashKey,
    /// The name that generated texts use.
    base: Vec<u8>,
    /// The text of the known files.
    pub files: Vec<u8>,
    /// Which names of C the text may use without declaring them.
    pub from_c: FromC,
    /// What the known files define.
    known: KnownDefinitions,
    /// The definitions behind them.
    pub(crate) lacking: Vec<u8>,
    /// The text, over both.
    pub session: Session,
}

impl FollowedText {
    /// Opens a text over what stands before it. `base` is the name that generated texts use. Tables of names
    /// hash by the key.
    ///
    /// # Errors
    ///
    /// The text, or what stands before it, is too large, or memory runs out.
    pub fn open(
        alloc: Global,
        files: &[u8],
        from_c: FromC,
        hash_key: HashKey,
        base: &[u8],
        bytes: &[u8],
    ) -> Result<FollowedText, TextFault>
        ensures over { IfOk result IsOver }
        ensures files { IfOk result (λ text. text.files.items ≡ files.now) }
        ensures from_c { IfOk result (λ text. text.from_c ≡ from_c) }
        ensures base { IfOk result (λ text. text.session.base ≡ base.now) }
        ensures text { IfOk result (λ text. text.session.text ≡ bytes.now) }
        ensures lacking { IfOk result (λ text. IsPrelude files.now from_c bytes.now text.lacking.items) }
        ensures before { IfOk result (λ text. IsBefore files.now from_c bytes.now text.session.known) }
        ensures too_large { most_text < length bytes.now → IsErrOf result TextFault.TooLarge }
        ensures large { IsErrOf result TextFault.TooLarge
            → (most_text < length bytes.now) ⊎ IsCrowded files.now from_c bytes.now }
        ensures in_range { IsErrOf result TextFault.BadRange → ⊥ }
    {
        if bytes.len() > MAX_TEXT {
            return Err(TextFault::TooLarge);
        }
        let (Ok(own_base), Ok(own_files)) = (
            Vec::from_slice(alloc, base),
            Vec::from_slice(alloc, files),
        ) else {
            return Err(TextFault::NoMemory);
        };
        let known = known_of(alloc, files)?;
        let mut session = open_over(alloc, files, hash_key, base, bytes)?;
        let Ok(lacking) = prelude_of(alloc, &mut session, &known, from_c) else {
            return Err(TextFault::NoMemory);
        };
        if !lacking.is_empty() {
            session = open_over_both(alloc, files, &lacking, hash_key, base, bytes)?;
        }
        Ok(FollowedText {
            alloc,
            hash_key,
            base: own_base,
            files: own_files,
            from_c,
            known,
            lacking,
            session,
        })
    }

    /// Carries an edit out, with the faults of [`Session::apply`], and answers what work it took. What stands
    /// before the text stays, until [`FollowedText::renew`].
    pub fn apply(&mut self, edit: &Edit) -> Result<Work, EditFault>
        ensures over { IsOver self.old → IsOver self.new }
        ensures text { OnOk result
            (self.new.session.text ≡ edited_by (change_of self.old.session.text edit.now)) }
        ensures fault { Judges (change_of self.old.session.text edit.now) result }
        ensures same { OnErr result (self.new.session ≡ self.old.session) }
        ensures base { self.new.session.base ≡ self.old.session.base }
        ensures files { self.new.files ≡ self.old.files }
        ensures from_c { self.new.from_c ≡ self.old.from_c }
    {
        self.session.apply(edit)
    }

    /// Puts before the text what stands before it as it is now. Where that is what stood there, this takes as
    /// long as it takes to find that out; else the text is compiled anew. After an error it stands as before.
    ///
    /// # Errors
    ///
    /// What stands before the text is too large, or memory runs out.
    pub fn renew(&mut self) -> Result<(), TextFault>
        ensures over { IsOver self.old → IsOver self.new }
        ensures text { self.new.session.text ≡ self.old.session.text }
        ensures base { IsOver self.old → self.new.session.base ≡ self.old.session.base }
        ensures files { self.new.files ≡ self.old.files }
        ensures from_c { self.new.from_c ≡ self.old.from_c }
        ensures before { IsOver self.old → OnOk result (IsBefore self.old.files.items self.old.from_c
            self.old.session.text self.new.session.known) }
        ensures large { IsOver self.old → IsErrOf result TextFault.TooLarge
            → (most_text < length self.old.session.text)
            ⊎ IsCrowded self.old.files.items self.old.from_c self.old.session.text }
        ensures in_range { IsErrOf result TextFault.BadRange → ⊥ }
    {
        let Ok(lacking) = prelude_of(self.alloc, &mut self.session, &self.known, self.from_c) else {
            return Err(TextFault::NoMemory);
        };
        if lacking.as_slice() == self.lacking.as_slice() {
            return Ok(());
        }
        self.session = open_over_both(
            self.alloc,
            &self.files,
            &lacking,
            self.hash_key,
            &self.base,
            self.session.bytes(),
        )?;
        self.lacking = lacking;
        Ok(())
    }

    /// Opens another text in its place, behind the text of these files. After an error it stands as before.
    ///
    /// # Errors
    ///
    /// As [`FollowedText::open`].
    pub fn replace(&mut self, files: &[u8], bytes: &[u8]) -> Result<(), TextFault>
        ensures over { OnOk result (IsOver self.new) }
        ensures files { OnOk result (self.new.files.items ≡ files.now) }
        ensures from_c { self.new.from_c ≡ self.old.from_c }
        ensures text { OnOk result (self.new.session.text ≡ bytes.now) }
        ensures base { IsOver self.old → self.new.session.base ≡ self.old.session.base }
        ensures before { OnOk result
            (IsBefore files.now self.old.from_c bytes.now self.new.session.known) }
        ensures large { IsErrOf result TextFault.TooLarge
            → (most_text < length bytes.now) ⊎ IsCrowded files.now self.old.from_c bytes.now }
        ensures in_range { IsErrOf result TextFault.BadRange → ⊥ }
        ensures same { OnErr result (self.new ≡ self.old) }
    {
        let opened = FollowedText::open(
            self.alloc,
            files,
            self.from_c,
            self.hash_key,
            &self.base,
            bytes,
        );
        match opened {
            Ok(text) => {
                *self = text;
                Ok(())
            }
            Err(fault) => Err(fault),
        }
    }

    /// The names that the text takes from C, each where it uses it first, in the order of these places; types
    /// of the table are left out. It goes over the text several times.
    ///
    /// # Errors
    ///
    /// [`NoMemory`] where a table or a list could not grow.
    pub fn foreign_names(&self) -> Result<Vec<ForeignName<'_>>, NoMemory>
        ensures { IsOver self.now → IfOk result
            (λ names. Compiles self.now.session.known self.now.session.text
            (λ items. AreForeign self.now.files.items self.now.from_c self.now.session.text items
            (view_all names.items))) }
    {
        foreign_in(self.alloc, &self.session, &self.known, self.from_c)
    }

    /// The place where the definition of a name leads to a name of C first, in the order of the text: the
    /// definition uses it, or uses a name whose definition leads to it. Types of the table are left out. It
    /// takes time in proportion to the text.
    ///
    /// # Errors
    ///
    /// [`NoMemory`] where a table or a list could not grow.
    pub fn foreign_use(&self, name: &[u8]) -> Result<Option<Spot>, NoMemory>
        ensures { IsOver self.now → IfOk result
            (λ spot. Compiles self.now.session.known self.now.session.text
            (λ items. IsForeignUse self.now.files.items self.now.from_c self.now.session.text items
            name.now spot)) }
    {
        foreign_use(self.alloc, &self.session, &self.known, self.from_c, name)
    }
}

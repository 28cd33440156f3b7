//! What stands before the text of a file.

ghost use Rattle.std.specs.Prelude.{◌≡◌, ◌⊎◌, ◌<◌, ℕ, List, [], ◌∷◌, ◌++◌, codes, length, map, IfErr, IfOk};
ghost use Rattle.std.specs.Prelude.{◌&&◌, true, IsErrOf, OnOk};
ghost use Rattle.std.specs.Str.{bytes_eq};
ghost use Rattle.x_explain.specs.KnownFiles.{no_places, places_of_files};
ghost use Rattle.x_text.specs.Limits.{most_text};
ghost use Rattle.x_prelude.specs.Before.{IsCrowded, IsOpenBy, IsPrelude};
ghost use Rattle.x_prelude.specs.Followed.{IsOver};
ghost use Rattle.x_opening.specs.Opened.{IsOpenedAfter, NotKnown};
ghost use Rattle.x_opening.specs.Opening.{AreRead, HavePlaces, from_options, types_only};

use crate::opening::{FaultStyle, Opening, from_options, open_text};
use crate::reading::read_text;
use std::alloc::Global;
use x_args::{BeforeArgs, Status, tell_of_file};
use x_explain::KnownFiles;
use x_hash::HashKey;
use x_prelude::{FollowedText, FromC, lacking_text};
use x_session::Session;
use x_text::{NoMemory, Sink, TextFault};

/// A file whose definitions are known before a text, with the session of its own text.
#[derive(Drop)]
struct KnownSource<'a> {
    name: &'a str,
    session: Session,
}

/// The files whose definitions are known before a text, and their texts, one after another.
#[derive(Drop)]
pub struct KnownSources<'a> {
    files: Vec<KnownSource<'a>>,
    text: Vec<u8>,
    /// Whether none of them takes a name from C but those of its table.
    pub is_plain: bool,
}

impl<'a> KnownSources<'a> {
    /// No file is known.
    pub fn none(alloc: Global) -> KnownSources<'a>
        ensures files { result.files.items ≡ [] }
        ensures text { result.text.items ≡ [] }
        ensures plain { result.is_plain ≡ true }
    {
        KnownSources {
            files: Vec::new(alloc),
            text: Vec::new(alloc),
            is_plain: true,
        }
    }

    /// Reads the known files of a command line. Each may use what those before it declare, and the same names
    /// of C as the text, and has no fault. Otherwise this tells what is wrong, and answers the status:
    /// `Faulty` for faults, which are reported in this style, and `Failed` for a file that cannot be read or
    /// is too large, or where memory runs out.
    pub fn read<E: Sink>(
        rt: &HostRuntime,
        program: &str,
        options: &BeforeArgs<'a>,
        style: FaultStyle,
        err: &mut E,
    ) -> Result<KnownSources<'a>, Status>
        ensures read { IfOk result (λ known. AreRead (from_options options.now) [] true
            (map (λ n. n.now) options.now.known.items) known.files.items known.text.items known.is_plain) }
        ensures told { IfErr result
            (λ status. NotKnown style program.now (E.state err.old) (E.state err.new) status) }
        ensures quiet { OnOk result (err.new ≡ err.old) }
    {
        let mut known = KnownSources::none(rt.alloc());
        let from_c = from_options(options);
        for name in &options.known {
            let bytes = read_text(rt, program, name, err)?;
            let session = known.open(rt.alloc(), program, name, &bytes, style, from_c, err)?;
            if known
                .add(rt.alloc(), name, session, from_c, &bytes)
                .is_err()
            {
                tell_of_file(program, "out of memory", "\n", err);
                return Err(Status::Failed);
            }
        }
        Ok(known)
    }

    /// Opens the text of a file over these, or tells what is wrong with it and answers the status.
    fn open<E: Sink>(
        &self,
        alloc: Global,
        program: &str,
        name: &str,
        bytes: &[u8],
        style: FaultStyle,
        from_c: FromC,
        err: &mut E,
    ) -> Result<Session, Status>
        ensures opened { IsOpenedAfter style self.now from_c program.now name.now bytes.now
            (E.state err.old) (E.state err.new) result }
        ensures quiet { OnOk result (err.new ≡ err.old) }
    {
        let how = Opening {
            style,
            known: self,
            from_c,
        };
        open_text(alloc, program, name, bytes, &how, err)
    }

    /// The texts of the files, one after another, each with a line end behind it.
    pub fn text(&self) -> &[u8]
        ensures { result.now ≡ self.now.text.items }
    {
        &self.text
    }

    /// Adds a file, whose text has this session, behind these, with what the text lacks before it.
    fn add(
        &mut self,
        alloc: Global,
        name: &'a str,
        session: Session,
        from_c: FromC,
        bytes: &[u8],
    ) -> Result<(), NoMemory>
        ensures files { OnOk result (self.new.files.items
            ≡ self.old.files.items ++ (record { name = name.entry; session = session }) ∷ []) }
        ensures text { OnOk result ((lacking of_types : List ℕ)
            × IsPrelude self.old.text.items from_c bytes.now lacking
            × IsPrelude self.old.text.items (types_only from_c) bytes.now of_types
            × (self.new.text.items ≡ self.old.text.items ++ lacking ++ bytes.now ++ codes "\n")
            × (self.new.is_plain ≡ (self.old.is_plain && bytes_eq lacking of_types))) }
    {
        let types_only = FromC {
            types: from_c.types,
            foreign: false,
        };
        // It was opened over these, so it is not too large.
        let (Ok(lacking), Ok(of_types)) = (
            lacking_text(alloc, &self.text, from_c, bytes),
            lacking_text(alloc, &self.text, types_only, bytes),
        ) else {
            return Err(NoMemory);
        };
        self.is_plain = self.is_plain & is_same(&lacking, &of_types);
        self.text.extend_from_slice(&lacking)?;
        self.text.extend_from_slice(bytes)?;
        self.text.push(b'\n')?;
        self.files.push(KnownSource { name, session })?;
        Ok(())
    }

    /// Where the files declare names.
    pub fn places(&self, alloc: Global) -> Result<KnownFiles<'_>, NoMemory>
        ensures { IfOk result
            (λ known. HavePlaces no_places self.now.files.items (places_of_files known.list.items)) }
    {
        let mut known = KnownFiles::none(alloc);
        for file in &self.files {
            known.add(alloc, file.name, &file.session)?;
        }
        Ok(known)
    }
}

/// Whether two texts are the same.
fn is_same(text: &[u8], other: &[u8]) -> bool
    ensures { result ≡ bytes_eq text.now other.now }
{
    text == other
}

/// Opens a text over what stands before it: the known files, and then the names of C that it uses, if it may.
///
/// # Errors
///
/// The text, or what stands before it, is too large, or memory runs out.
pub fn open_by(
    alloc: Global,
    how: &Opening,
    hash_key: HashKey,
    base: &[u8],
    bytes: &[u8],
) -> Result<Session, TextFault>
    ensures { IsOpenBy how.now.known.now.text.items how.now.from_c base.now bytes.now result }
{
    x_prelude::open_by(alloc, &how.known.text, how.from_c, hash_key, base, bytes)
}

/// As [`open_by`], of a text that stays open.
pub fn open_followed(
    alloc: Global,
    how: &Opening,
    hash_key: HashKey,
    base: &[u8],
    bytes: &[u8],
) -> Result<FollowedText, TextFault>
    ensures over { IfOk result IsOver }
    ensures files { IfOk result (λ text. text.files.items ≡ how.now.known.now.text.items) }
    ensures from_c { IfOk result (λ text. text.from_c ≡ how.now.from_c) }
    ensures base { IfOk result (λ text. text.session.base ≡ base.now) }
    ensures text { IfOk result (λ text. text.session.text ≡ bytes.now) }
    ensures too_large { most_text < length bytes.now → IsErrOf result TextFault.TooLarge }
    ensures large { IsErrOf result TextFault.TooLarge → (most_text < length bytes.now)
        ⊎ IsCrowded how.now.known.now.text.items how.now.from_c bytes.now }
    ensures in_range { IsErrOf result TextFault.BadRange → ⊥ }
{
    FollowedText::open(alloc, &how.known.text, how.from_c, hash_key, base, bytes)
}

//! What is compiled of the text that a client has.

ghost use Rattle.std.specs.Prelude.{◌≡◌, ◌⊎◌, ◌<◌, ◌++◌, ◌&&◌, false, true, not, IfErr, IfOk, IsErrOf, OnOk};
ghost use Rattle.std.specs.Prelude.{length};
ghost use Rattle.std.specs.List.{flat_map};
ghost use Rattle.x_prelude.specs.Before.{IsBefore, IsCrowded};
ghost use Rattle.x_text.specs.Edits.{change_of, edited_by, LiesWithin};
ghost use Rattle.x_text.specs.Limits.{most_text};
ghost use Rattle.x_prelude.specs.Followed.{IsOver};
ghost use Rattle.x_documents.specs.Compiled.{HasNoHash, IsCompiled, Stands};
ghost use Rattle.x_directives.specs.Blanked.{blanked};
ghost use Rattle.x_directives.specs.Constants.{defined};
ghost use Rattle.x_documents.specs.Grounds.{compiled_of, constant_text, constants_of, ground_of, ground_with};
ghost use Rattle.x_documents.specs.Grounds.{has_mark, unmarked};
ghost use Rattle.x_documents.specs.Noting.{IsNotCompiled};

use crate::setting::Setting;
use std::alloc::Global;
use x_directives::{blanked, defined, edit_between, has_no_hash};
use x_hash::HashKey;
use x_prelude::FollowedText;
use x_session::EditFault;
use x_text::{Edit, NoMemory};

/// Compiles a text that a client has. `base` is the name that generated texts use.
pub(crate) fn open_text(
    alloc: Global,
    hash_key: HashKey,
    setting: &Setting,
    base: &[u8],
    shown: &[u8],
) -> Result<FollowedText, EditFault>
    ensures over { IfOk result (λ text. ∥ IsOver text ∥₁) }
    ensures from_c { IfOk result (λ text. text.from_c ≡ setting.now.from_c) }
    ensures compiled { IfOk result (IsCompiled setting.now.files.now setting.now.blanks shown.now) }
    ensures base { IfOk result (λ text. text.session.base ≡ base.now) }
    ensures fault { IfErr result (IsNotCompiled (ground_of setting.now) shown.now) }
{
    let Ok(parts) = Parts::of(alloc, setting.files, setting.blanks, shown) else {
        return Err(EditFault::NoMemory);
    };
    FollowedText::open(
        alloc,
        &parts.files,
        setting.from_c,
        hash_key,
        base,
        &parts.text,
    )
}

/// Whether it is known that nothing is blanked of a text: one that has these fresh bytes, and no `#` beside
/// them.
pub(crate) fn stands(blanks: bool, fresh: &[u8], text: &[u8]) -> bool
    ensures hash { result ≡ true → blanks ≡ true → HasNoHash fresh.now }
    ensures mark { result ≡ true → blanks ≡ true → has_mark text.now ≡ false }
{
    !blanks || (!has_mark(text) && has_no_hash(fresh))
}

/// Whether lines of cpp may matter to what is told of a text.
pub(crate) fn has_lines(blanks: bool, stands: bool) -> bool
    ensures { result ≡ (blanks && not stands) }
{
    blanks && !stands
}

/// Compiles the text that a client has now: by one edit, or anew where its directives give other constants.
/// Whether it stands as it is, is known.
pub(crate) fn follow_text(
    alloc: Global,
    text: &mut FollowedText,
    files: &[u8],
    blanks: bool,
    stands: bool,
    shown: &[u8],
) -> Result<(), EditFault>
    requires over { ∥ IsOver text.now ∥₁ }
    requires stands { stands ≡ true → Stands blanks shown.now }
    ensures over { ∥ IsOver text.new ∥₁ }
    ensures from_c { text.new.from_c ≡ text.old.from_c }
    ensures compiled { OnOk result (IsCompiled files.now blanks shown.now text.new) }
    ensures base { text.new.session.base ≡ text.old.session.base }
    ensures fault { IfErr result
        (IsNotCompiled (ground_with files.now text.old.from_c blanks false 0) shown.now) }
{
    if stands {
        return follow_both(text, files, shown);
    }
    let Ok(parts) = Parts::of(alloc, files, blanks, shown) else {
        return Err(EditFault::NoMemory);
    };
    follow_both(text, &parts.files, &parts.text)
}

/// Makes these bytes the text that is compiled: by one edit, or anew where other files stand before it.
fn follow_both(text: &mut FollowedText, files: &[u8], bytes: &[u8]) -> Result<(), EditFault>
    requires { ∥ IsOver text.now ∥₁ }
    ensures over { ∥ IsOver text.new ∥₁ }
    ensures from_c { text.new.from_c ≡ text.old.from_c }
    ensures files { OnOk result (text.new.files.items ≡ files.now) }
    ensures text { OnOk result (text.new.session.text ≡ bytes.now) }
    ensures base { text.new.session.base ≡ text.old.session.base }
    ensures before { OnOk result
        ∥ IsBefore files.now text.old.from_c bytes.now text.new.session.known ∥₁ }
    ensures large { IsErrOf result EditFault.TooLarge → ∥ (most_text < length bytes.now)
        ⊎ IsCrowded files.now text.old.from_c bytes.now ∥₁ }
    ensures in_range { IsErrOf result EditFault.BadRange → ⊥ }
{
    if files == text.files.as_slice() {
        follow(text, bytes)
    } else {
        text.replace(files, bytes)
    }
}

/// What is compiled of a text, and what stands first before it.
#[derive(Drop)]
struct Parts {
    /// The text of known files, and the constants of its directives.
    files: Vec<u8>,
    text: Vec<u8>,
}

impl Parts {
    /// The parts of a text that a client has.
    fn of(alloc: Global, files: &[u8], blanks: bool, shown: &[u8]) -> Result<Parts, NoMemory>
        ensures files { IfOk result
            (λ parts. parts.files.items ≡ files.now ++ constants_of blanks shown.now) }
        ensures text { IfOk result (λ parts. parts.text.items ≡ compiled_of blanks shown.now) }
    {
        let before = Vec::from_slice(alloc, files)?;
        if !blanks {
            return Ok(Parts {
                files: before,
                text: Vec::from_slice(alloc, shown)?,
            });
        }
        if has_mark(shown) {
            return Parts::blanked(alloc, before, &unmarked(alloc, shown)?);
        }
        Parts::blanked(alloc, before, shown)
    }

    /// The parts of a text without a byte order mark, the directives of which are blanked.
    fn blanked(alloc: Global, before: Vec<u8>, text: &[u8]) -> Result<Parts, NoMemory>
        ensures files { IfOk result
            (λ parts. parts.files.items ≡ before.items ++ flat_map constant_text (defined text.now)) }
        ensures text { IfOk result (λ parts. parts.text.items ≡ blanked text.now) }
    {
        let mut files = before;
        add_constants(alloc, &mut files, text)?;
        Ok(Parts {
            files,
            text: blanked(alloc, text)?,
        })
    }
}

/// Whether a byte order mark stands at the front (RFC 3629, section 6).
fn has_mark(text: &[u8]) -> bool
    ensures { result ≡ has_mark text.now }
{
    text.len() >= 3 && text[0] == 0xEF && text[1] == 0xBB && text[2] == 0xBF
}

/// A text with spaces in place of a byte order mark, so that no place moves.
fn unmarked(alloc: Global, text: &[u8]) -> Result<Vec<u8>, NoMemory>
    requires { has_mark text.now ≡ true }
    ensures { IfOk result (λ bytes. bytes.items ≡ unmarked text.now) }
{
    let mut bytes = Vec::from_slice(alloc, b"   ")?;
    bytes.extend_from_slice(&text[3..])?;
    Ok(bytes)
}

/// Adds the constants that the directives of a text give.
fn add_constants(alloc: Global, text: &mut Vec<u8>, shown: &[u8]) -> Result<(), NoMemory>
    ensures { OnOk result (text.new.items ≡ text.old.items ++ flat_map constant_text (defined shown.now)) }
{
    for constant in &defined(alloc, shown)? {
        text.extend_from_slice(b"const ")?;
        text.extend_from_slice(constant.name)?;
        text.extend_from_slice(b" = ")?;
        text.extend_from_slice(constant.number)?;
        text.extend_from_slice(b";\n")?;
    }
    Ok(())
}

/// Makes these bytes the text that is compiled, by one edit, and puts before it what stands before it then.
fn follow(text: &mut FollowedText, bytes: &[u8]) -> Result<(), EditFault>
    requires { ∥ IsOver text.now ∥₁ }
    ensures over { ∥ IsOver text.new ∥₁ }
    ensures files { text.new.files ≡ text.old.files }
    ensures from_c { text.new.from_c ≡ text.old.from_c }
    ensures text { OnOk result (text.new.session.text ≡ bytes.now) }
    ensures base { text.new.session.base ≡ text.old.session.base }
    ensures before { OnOk result
        ∥ IsBefore text.old.files.items text.old.from_c bytes.now text.new.session.known ∥₁ }
    ensures large { IsErrOf result EditFault.TooLarge → ∥ (most_text < length bytes.now)
        ⊎ IsCrowded text.old.files.items text.old.from_c bytes.now ∥₁ }
    ensures in_range { IsErrOf result EditFault.BadRange → ⊥ }
{
    let edit = edit_between(text.session.bytes(), bytes);
    follow_edit(text, &edit)
}

/// Carries an edit of the text that is compiled out, and puts before it what stands before it then.
pub(crate) fn follow_edit(text: &mut FollowedText, edit: &Edit) -> Result<(), EditFault>
    requires over { ∥ IsOver text.now ∥₁ }
    requires within { LiesWithin (change_of text.now.session.text edit.now) }
    ensures over { ∥ IsOver text.new ∥₁ }
    ensures files { text.new.files ≡ text.old.files }
    ensures from_c { text.new.from_c ≡ text.old.from_c }
    ensures text { OnOk result
        (text.new.session.text ≡ edited_by (change_of text.old.session.text edit.now)) }
    ensures base { text.new.session.base ≡ text.old.session.base }
    ensures before { OnOk result ∥ IsBefore text.old.files.items text.old.from_c
        (edited_by (change_of text.old.session.text edit.now)) text.new.session.known ∥₁ }
    ensures large { IsErrOf result EditFault.TooLarge
        → ∥ (most_text < length (edited_by (change_of text.old.session.text edit.now)))
        ⊎ IsCrowded text.old.files.items text.old.from_c
        (edited_by (change_of text.old.session.text edit.now)) ∥₁ }
    ensures in_range { IsErrOf result EditFault.BadRange → ⊥ }
{
    text.apply(edit)?;
    text.renew()
}

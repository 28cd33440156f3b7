//! The words that values begin with (RFC 4506, section 4).
ghost use Rattle.std.specs.Prelude.{◌≡◌, ◌<◌, ◌^◌, ◌++◌, ℕ, List, length, IfOk, IfErr, IsTrue, is_some, None};
ghost use Rattle.x_schema.specs.Choices.{name_for, arm_for};
ghost use Rattle.x_schema.specs.Schema.{Schema, form_at};
ghost use Rattle.x_schema.specs.Sound.{is_legal};
ghost use Rattle.x_value.specs.Layouts.{layout_at, layout_of, head_fault, open_fault, illegal_code};
ghost use Rattle.x_value.specs.Layouts.{arm_fault, most_links, Chosen, Counted, Sized};
ghost use Rattle.x_value.specs.Shown.{Leaf};
ghost use Rattle.x_value.specs.Jobs.{HeadFault, HeadTaken};

use crate::fault::{ReadCode, ReadFault};
use x_schema::{Arms, Field, Form, FormIndex, Schema};
use x_units::split_word;

/// The most links that may be open at once.
pub const MOST_LINKS: u32 = 65_536;

#[tactic(auto, unfolding(crate::specs::Layouts::most_links))]
fn fault_of_links(links: u32) -> Option<ReadCode>
    ensures { result ≡ open_fault links }
{
    if links < MOST_LINKS {
        None
    } else {
        Some(ReadCode::TooDeep)
    }
}

fn is_legal_word(form: &Form, word: u32) -> bool
    ensures { result ≡ is_legal form.now word }
{
    match form {
        Form::Int => true,
        Form::UnsignedInt => true,
        Form::Bool => word < 2,
        Form::Enum(names) => names.name(word).is_some(),
        _ => false,
    }
}

fn illegal(form: &Form) -> ReadCode
    ensures { result ≡ illegal_code form.now }
{
    match form {
        Form::Bool => ReadCode::BadBool,
        _ => ReadCode::BadEnum,
    }
}

/// Why a word may not be the discriminant of a union, if it may not.
fn fault_of_discriminant(
    schema: &Schema,
    discriminant: Field,
    arms: &Arms,
    word: u32,
) -> Option<ReadCode>
    requires { discriminant.form < length schema.now.forms }
    ensures { (links : ℕ) → result ≡ head_fault schema.now (Chosen discriminant arms.now) links word }
{
    let form = schema.form_at(discriminant.form);
    if !is_legal_word(form, word) {
        return Some(illegal(form));
    }
    match arms.arm(word) {
        Some(_) => None,
        None => Some(ReadCode::NoArm),
    }
}

/// Why a word may not be the first of a value of the form, if it may not.
#[tactic(auto, using(crate::proofs::Unions::union_known))]
#[inline(always)]
fn fault_of_word(schema: &Schema, form: FormIndex, links: u32, word: u32) -> Option<ReadCode>
    requires { form < length schema.now.forms }
    ensures { result ≡ head_fault schema.now (layout_at schema.now form) links word }
{
    match schema.form_at(form) {
        Form::Bool => {
            if word < 2 {
                None
            } else {
                Some(ReadCode::BadBool)
            }
        }
        Form::Enum(names) => {
            if names.name(word).is_some() {
                None
            } else {
                Some(ReadCode::BadEnum)
            }
        }
        Form::Opaque(most) => fault_of_length(word, *most),
        Form::String(most) => fault_of_length(word, *most),
        Form::Array(_, most) => fault_of_count(word, *most, links),
        Form::Optional(_) => {
            if word >= 2 {
                Some(ReadCode::BadBool)
            } else if word == 0 {
                None
            } else {
                fault_of_links(links)
            }
        }
        Form::Union(discriminant, arms) => fault_of_discriminant(schema, *discriminant, arms, word),
        _ => None,
    }
}

fn fault_of_length(word: u32, most: u32) -> Option<ReadCode>
    ensures { (s : Schema) (links : ℕ) (leaf : List ℕ → Leaf)
        → result ≡ head_fault s (Sized leaf most) links word }
{
    if word <= most {
        None
    } else {
        Some(ReadCode::TooMany)
    }
}

fn fault_of_count(word: u32, most: u32, links: u32) -> Option<ReadCode>
    ensures { (s : Schema) (of : ℕ) → result ≡ head_fault s (Counted of most) links word }
{
    if word > most {
        Some(ReadCode::TooMany)
    } else if word == 0 {
        None
    } else {
        fault_of_links(links)
    }
}

/// The first word of a value of the form, and the bytes behind it.
#[inline(always)]
pub(crate) fn head<'a>(
    schema: &Schema,
    form: FormIndex,
    links: u32,
    bytes: &'a [u8],
) -> Result<(u32, &'a [u8]), ReadFault>
    requires { form < length schema.now.forms }
    ensures ok { IfOk result
        (λ r. HeadTaken schema.now (layout_at schema.now form) links bytes.now r.0 r.1.now) }
    ensures err { IfErr result
        (λ e. HeadFault schema.now (layout_at schema.now form) links bytes.now e.at e.code) }
{
    let Some((word, rest)) = split_word(bytes) else {
        return Err(ReadFault {
            at: bytes.len(),
            code: ReadCode::Short,
        });
    };
    match fault_of_word(schema, form, links, word) {
        None => Ok((word, rest)),
        Some(code) => Err(ReadFault { at: 0, code }),
    }
}

//! How the reader begins a value.
ghost use Rattle.std.specs.Prelude.{◌≡◌, ◌<◌, ◌≤◌, ◌^◌, ◌+◌, ◌∷◌, [], ℕ, List, length, IfOk, IfErr};
ghost use Rattle.std.specs.Prelude.{None, Some};
ghost use Rattle.x_schema.specs.Schema.{Schema, form_at};
ghost use Rattle.x_schema.specs.Sound.{IsSound};
ghost use Rattle.x_value.specs.Shown.{Leaf};
ghost use Rattle.x_value.specs.Layouts.{Job, Fixed, placed, layout_at, arm_jobs, behind, most_links};
ghost use Rattle.x_value.specs.Layouts.{head_fault, head_nodes, body_leaf, fixed_size, number_size};
ghost use Rattle.x_value.specs.Jobs.{AreReady, BodyFault, Moves, Refused};
ghost use Rattle.x_value.specs.Entries.{nodes_of, IsCalled, AreNamed};
ghost use Rattle.x_value.specs.Work.{spot_of, value_job, jobs_of_option, IsTypedOption, IsRear, IsToRead};
ghost use Rattle.x_value.specs.Work.{shown_entries, Begun, weight_of_option, most_weight, IsHeaded};
ghost use Rattle.x_value.specs.Work.{IsSizedForm, IsKnownArm};

use super::heads::head;
use super::task::{Spot, Task};
use super::words::body;
use crate::fault::{OUT_OF_MEMORY, ReadCode, ReadFault};
use crate::nodes::{
    CompactLabel, CompactLeaf, CompactNode, compact_body, compact_discriminant, compact_enumerator,
};
use x_schema::{Arm, Form, FormIndex, Schema};

/// A value that was begun: the nodes that it shows so far, what is to be read behind them, and the bytes
/// behind those that were read.
#[derive(Clone, Copy, Drop)]
pub(crate) struct Step<'a> {
    pub(crate) first: CompactNode,
    pub(crate) second: Option<CompactNode>,
    pub(crate) next: Option<Task>,
    pub(crate) rest: &'a [u8],
}

#[inline(always)]
fn node(spot: Spot, leaf: CompactLeaf) -> CompactNode
    ensures { result ≡ record { level = spot.level; label = spot.label; leaf = leaf } }
{
    CompactNode {
        level: spot.level,
        label: spot.label,
        leaf,
    }
}

fn size_of_fixed(form: &Form) -> Option<u32>
    ensures { result ≡ fixed_size form.now }
{
    match form {
        Form::Void => Some(0),
        Form::Int => Some(4),
        Form::UnsignedInt => Some(4),
        Form::Hyper => Some(8),
        Form::UnsignedHyper => Some(8),
        Form::Float => Some(4),
        Form::Double => Some(8),
        Form::Quadruple => Some(16),
        Form::FixedOpaque(len) => Some(*len),
        _ => None,
    }
}

/// Reads a body of so many bytes, and the zeros behind it.
#[inline(always)]
fn padded_body<'a>(
    form: &Form,
    message: &'a [u8],
    spot: Spot,
    len: u32,
    bytes: &'a [u8],
) -> Result<(CompactNode, &'a [u8]), ReadFault>
    requires rear { IsRear message.now bytes.now }
    requires number { number_size form.now ≤ len }
    ensures ok { IfOk result
        (λ r. (s : Schema) (leaf : List ℕ → Leaf) → ((bs : List ℕ) → body_leaf form.now bs ≡ leaf bs)
        → (ks : List Job) → Moves s (placed (Fixed leaf len) (spot_of s spot) ∷ ks) bytes.now
        (nodes_of s message.now (r.0 ∷ [])) ks r.1.now) }
    ensures named { IfOk result (λ r. (n : ℕ) → IsCalled n spot.label → AreNamed n (r.0 ∷ [])) }
    ensures less { IfOk result (λ r. length r.1.now + len ≤ length bytes.now) }
    ensures err { IfErr result (λ e. BodyFault len bytes.now e.at e.code) }
{
    let (body, rest) = body(len, bytes)?;
    let at = message.len() - bytes.len();
    Ok((node(spot, compact_body(form, body, len, at)), rest))
}

/// The fault, with its place counted from so many bytes before.
pub(crate) fn counted_from(fault: ReadFault, read: usize) -> ReadFault
    requires { fault.at + read < 2 ^ 64 }
    ensures code { result.code ≡ fault.code }
    ensures memory { fault.code ≡ ReadCode.NoMemory → result.at ≡ fault.at }
    ensures place { (fault.code ≡ ReadCode.NoMemory → ⊥) → result.at ≡ read + fault.at }
{
    match fault.code {
        ReadCode::NoMemory => fault,
        code => ReadFault {
            at: fault.at + read,
            code,
        },
    }
}

/// The nodes that the first word of a value shows.
#[inline(always)]
fn shown_head(
    schema: &Schema,
    form: FormIndex,
    spot: Spot,
    level: u32,
    word: u32,
) -> (CompactNode, Option<CompactNode>)
    requires word { IsHeaded schema.now form spot level }
    requires fine { head_fault schema.now (layout_at schema.now form) spot.links word ≡ None }
    ensures shown { (m : List ℕ)
        → nodes_of schema.now m (shown_entries result.0 result.1)
        ≡ head_nodes schema.now (layout_at schema.now form) (spot_of schema.now spot) word }
    ensures named { AreNamed (length schema.now.names) (shown_entries result.0 result.1) }
{
    match schema.form_at(form) {
        Form::Bool => (node(spot, CompactLeaf::Truth(word == 1)), None),
        Form::Enum(names) => (node(spot, compact_enumerator(names, word)), None),
        Form::Array(_, _) => (node(spot, CompactLeaf::Array(word)), None),
        Form::Optional(_) => {
            let leaf = if word == 0 {
                CompactLeaf::Null
            } else {
                CompactLeaf::Link
            };
            (node(spot, leaf), None)
        }
        Form::Union(discriminant, _) => {
            let second = CompactNode {
                level,
                label: CompactLabel::Name(discriminant.name),
                leaf: compact_discriminant(schema.form_at(discriminant.form), word),
            };
            (node(spot, CompactLeaf::Union), Some(second))
        }
        _ => (node(spot, CompactLeaf::Void), None),
    }
}

/// What stands in an arm.
#[tactic(auto, using(crate::proofs::Weights::light_one, crate::proofs::Weights::light_none))]
fn arm_task(arm: Arm, level: u32, links: u32) -> Option<Task>
    requires { links ≤ most_links }
    ensures jobs { (s : Schema) → jobs_of_option s result ≡ arm_jobs s level links (Some arm) }
    ensures typed { (s : Schema) → IsKnownArm s arm → IsTypedOption s result }
    ensures light { (s : Schema) → IsKnownArm s arm → weight_of_option s result < most_weight s }
{
    match arm {
        Arm::Void => None,
        Arm::Of(field) => {
            let spot = Spot {
                label: CompactLabel::Name(field.name),
                level,
                links,
            };
            Some(Task::One(field.form, spot))
        }
    }
}

/// What stands behind the first word of a value.
#[inline(always)]
fn behind_head(schema: &Schema, form: FormIndex, spot: Spot, level: u32, word: u32) -> Option<Task>
    requires word { IsHeaded schema.now form spot level }
    requires fine { head_fault schema.now (layout_at schema.now form) spot.links word ≡ None }
    ensures jobs { jobs_of_option schema.now result
        ≡ behind schema.now (layout_at schema.now form) (spot_of schema.now spot) word }
    ensures typed { IsTypedOption schema.now result }
    ensures light { weight_of_option schema.now result < most_weight schema.now }
{
    match schema.form_at(form) {
        Form::Array(link, _) => {
            if word == 0 {
                return None;
            }
            let of = schema.target(*link);
            Some(Task::Elements(of, 0, word, level, spot.links + 1))
        }
        Form::Optional(link) => {
            if word == 0 {
                return None;
            }
            let spot = Spot {
                label: CompactLabel::Star,
                level,
                links: spot.links + 1,
            };
            Some(Task::One(schema.target(*link), spot))
        }
        Form::Union(_, arms) => match arms.arm(word) {
            Some(arm) => arm_task(arm, level, spot.links),
            None => None,
        },
        _ => None,
    }
}

/// Reads the first word of a value.
#[inline(always)]
fn headed_value<'a>(
    schema: &Schema,
    message: &'a [u8],
    form: FormIndex,
    spot: Spot,
    level: u32,
    bytes: &'a [u8],
) -> Result<Step<'a>, ReadFault>
    requires sound { IsSound schema.now }
    requires head { IsHeaded schema.now form spot level }
    ensures ok { IfOk result
        (λ r. Begun schema.now message.now form spot bytes.now r.first r.second r.next r.rest.now) }
    ensures err { IfErr result
        (λ e. (ks : List Job) → AreReady schema.now ks
        → Refused schema.now (value_job schema.now form spot ∷ ks) bytes.now e.at e.code) }
{
    let (word, rest) = head(schema, form, spot.links, bytes)?;
    let (first, second) = shown_head(schema, form, spot, level, word);
    let next = behind_head(schema, form, spot, level, word);
    Ok(Step {
        first,
        second,
        next,
        rest,
    })
}

/// Reads a length and a body.
#[inline(always)]
fn sized<'a>(
    schema: &Schema,
    message: &'a [u8],
    form: FormIndex,
    spot: Spot,
    bytes: &'a [u8],
) -> Result<Step<'a>, ReadFault>
    requires sound { IsSound schema.now }
    requires value { IsToRead schema.now form spot }
    requires sized { IsSizedForm (form_at schema.now form) }
    requires rear { IsRear message.now bytes.now }
    ensures ok { IfOk result
        (λ r. Begun schema.now message.now form spot bytes.now r.first r.second r.next r.rest.now) }
    ensures err { IfErr result
        (λ e. (ks : List Job) → AreReady schema.now ks
        → Refused schema.now (value_job schema.now form spot ∷ ks) bytes.now e.at e.code) }
{
    let (len, rest) = head(schema, form, spot.links, bytes)?;
    match padded_body(schema.form_at(form), message, spot, len, rest) {
        Ok((first, rest)) => Ok(Step {
            first,
            second: None,
            next: None,
            rest,
        }),
        Err(fault) => Err(counted_from(fault, 4)),
    }
}

/// Reads a body without a length.
#[inline(always)]
fn fixed<'a>(
    schema: &Schema,
    message: &'a [u8],
    form: FormIndex,
    spot: Spot,
    size: u32,
    bytes: &'a [u8],
) -> Result<Step<'a>, ReadFault>
    requires sound { IsSound schema.now }
    requires value { IsToRead schema.now form spot }
    requires size { fixed_size (form_at schema.now form) ≡ Some size }
    requires rear { IsRear message.now bytes.now }
    ensures ok { IfOk result
        (λ r. Begun schema.now message.now form spot bytes.now r.first r.second r.next r.rest.now) }
    ensures err { IfErr result
        (λ e. (ks : List Job) → AreReady schema.now ks
        → Refused schema.now (value_job schema.now form spot ∷ ks) bytes.now e.at e.code) }
{
    let (first, rest) = padded_body(schema.form_at(form), message, spot, size, bytes)?;
    Ok(Step {
        first,
        second: None,
        next: None,
        rest,
    })
}

/// So many elements.
fn elements(of: FormIndex, count: u32, level: u32, links: u32) -> Task
    ensures task { result ≡ Task.Elements of 0 count level links }
    ensures fits { count < 2 ^ 32 }
{
    Task::Elements(of, 0, count, level, links)
}

/// Reads a value, or its first word, and tells what is to be read behind it.
#[inline(always)]
pub(crate) fn value<'a>(
    schema: &Schema,
    message: &'a [u8],
    form: FormIndex,
    spot: Spot,
    bytes: &'a [u8],
) -> Result<Step<'a>, ReadFault>
    requires value { IsToRead schema.now form spot }
    requires rear { IsRear message.now bytes.now }
    ensures ok { IfOk result
        (λ r. Begun schema.now message.now form spot bytes.now r.first r.second r.next r.rest.now) }
    ensures err { IfErr result
        (λ e. (ks : List Job) → AreReady schema.now ks
        → Refused schema.now (value_job schema.now form spot ∷ ks) bytes.now e.at e.code) }
{
    let Some(level) = spot.level.checked_add(1) else {
        return Err(OUT_OF_MEMORY);
    };
    match schema.form_at(form) {
        Form::Struct(_) => Ok(Step {
            first: node(spot, CompactLeaf::Struct),
            second: None,
            next: Some(Task::Fields(form, 0, level, spot.links)),
            rest: bytes,
        }),
        Form::FixedArray(of, count) => Ok(Step {
            first: node(spot, CompactLeaf::Array(*count)),
            second: None,
            next: Some(elements(*of, *count, level, spot.links)),
            rest: bytes,
        }),
        Form::Opaque(_) => sized(schema, message, form, spot, bytes),
        Form::String(_) => sized(schema, message, form, spot, bytes),
        other => match size_of_fixed(other) {
            Some(size) => fixed(schema, message, form, spot, size, bytes),
            None => headed_value(schema, message, form, spot, level, bytes),
        },
    }
}

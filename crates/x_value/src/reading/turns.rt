//! One turn of the reader: a task is taken from the stack and carried out.
ghost use Rattle.std.specs.Prelude.{◌≡◌, ◌+◌, ◌++◌, ◌∷◌, [], drop, IfOk, IfErr};
ghost use Rattle.std.specs.Prelude.{OnOk, MatchOption};
ghost use Rattle.x_schema.specs.Sound.{IsSound};
ghost use Rattle.x_value.specs.Jobs.{Refused};
ghost use Rattle.x_value.specs.Work.{fields, value_job, jobs_of_task, pending, tasks_of_option};
ghost use Rattle.x_value.specs.Work.{tasks_of_value, shown_entries, IsRear, IsTakenTask};
ghost use Rattle.x_value.specs.Work.{Stacked, TakesTask, Turn};

use super::steps::value;
use super::task::{Spot, Task};
use crate::fault::{ReadCode, ReadFault};
use crate::nodes::{CompactLabel, CompactNode};
use x_schema::{Field, Form, FormIndex, Schema};

#[inline(always)]
pub(crate) fn put(stack: &mut Vec<Task>, task: Task) -> Result<(), ReadFault>
    ensures ok { OnOk result (stack.new.items ≡ stack.old.items ++ task ∷ []) }
    ensures err { IfErr result (λ e. (e.code ≡ ReadCode.NoMemory) × (e.at ≡ 0)) }
{
    stack.push(task)?;
    Ok(())
}

#[inline(always)]
fn put_next(stack: &mut Vec<Task>, next: Option<Task>) -> Result<(), ReadFault>
    ensures ok { OnOk result (stack.new.items ≡ stack.old.items ++ tasks_of_option next) }
    ensures err { IfErr result (λ e. (e.code ≡ ReadCode.NoMemory) × (e.at ≡ 0)) }
{
    match next {
        Some(task) => put(stack, task),
        None => Ok(()),
    }
}

#[inline(always)]
fn show(entries: &mut Vec<CompactNode>, entry: CompactNode) -> Result<(), ReadFault>
    ensures ok { OnOk result (entries.new.items ≡ entries.old.items ++ entry ∷ []) }
    ensures err { IfErr result (λ e. (e.code ≡ ReadCode.NoMemory) × (e.at ≡ 0)) }
{
    entries.push(entry)?;
    Ok(())
}

#[tactic(auto, using(crate::proofs::TurnLemmas::shown_two))]
#[inline(always)]
fn show_all(
    entries: &mut Vec<CompactNode>,
    first: CompactNode,
    second: Option<CompactNode>,
) -> Result<(), ReadFault>
    ensures ok { OnOk result (entries.new.items ≡ entries.old.items ++ shown_entries first second) }
    ensures err { IfErr result (λ e. (e.code ≡ ReadCode.NoMemory) × (e.at ≡ 0)) }
{
    show(entries, first)?;
    match second {
        Some(second) => show(entries, second),
        None => Ok(()),
    }
}

/// Begins a value.
#[inline(always)]
fn begin<'a>(
    schema: &Schema,
    message: &'a [u8],
    stack: &mut Vec<Task>,
    entries: &mut Vec<CompactNode>,
    form: FormIndex,
    spot: Spot,
    bytes: &'a [u8],
) -> Result<&'a [u8], ReadFault>
    requires sound { IsSound schema.now }
    requires taken { IsTakenTask schema.now (Task.One form spot) stack.old.items }
    requires rear { IsRear message.now bytes.now }
    ensures ok { IfOk result
        (λ rest. Turn schema.now message.now
        (Task.One form spot) stack.old.items entries.old.items bytes.now stack.new.items entries.new.items
        rest.now) }
    ensures err { IfErr result
        (λ e. Refused schema.now
        (value_job schema.now form spot ∷ pending schema.now stack.old.items) bytes.now e.at e.code) }
{
    let step = value(schema, message, form, spot, bytes)?;
    show_all(entries, step.first, step.second)?;
    put_next(stack, step.next)?;
    Ok(step.rest)
}

/// The field at a place, and the place behind it.
fn field_at(form: &Form, place: usize) -> Option<(Field, usize)>
    ensures { MatchOption result (drop place (fields form.now) ≡ [])
        (λ r. (r.1 ≡ place + 1) × (drop place (fields form.now) ≡ r.0 ∷ drop (place + 1) (fields form.now))) }
{
    match form {
        Form::Struct(fields) => {
            if place < fields.len() {
                Some((fields[place], place + 1))
            } else {
                None
            }
        }
        _ => None,
    }
}

/// The field at a place and where it stands, if there is one; the fields behind it go on the stack.
#[inline(always)]
fn next_field(
    schema: &Schema,
    stack: &mut Vec<Task>,
    form: FormIndex,
    place: usize,
    level: u32,
    links: u32,
) -> Result<Option<(FormIndex, Spot)>, ReadFault>
    requires { IsTakenTask schema.now (Task.Fields form place level links) stack.old.items }
    ensures ok { IfOk result
        (λ value. Stacked schema.now (Task.Fields form place level links) stack.old.items
        (stack.new.items ++ tasks_of_value value)) }
    ensures err { IfErr result (λ e. (e.code ≡ ReadCode.NoMemory) × (e.at ≡ 0)) }
{
    let Some((field, next)) = field_at(schema.form_at(form), place) else {
        return Ok(None);
    };
    put(stack, Task::Fields(form, next, level, links))?;
    let spot = Spot {
        label: CompactLabel::Name(field.name),
        level,
        links,
    };
    Ok(Some((field.form, spot)))
}

/// The element at a place and where it stands, if there is one; the elements behind it go on the stack.
#[inline(always)]
fn next_element(
    schema: &Schema,
    stack: &mut Vec<Task>,
    form: FormIndex,
    next: u32,
    end: u32,
    level: u32,
    links: u32,
) -> Result<Option<(FormIndex, Spot)>, ReadFault>
    requires { IsTakenTask schema.now (Task.Elements form next end level links) stack.old.items }
    ensures ok { IfOk result
        (λ value. Stacked schema.now (Task.Elements form next end level links) stack.old.items
        (stack.new.items ++ tasks_of_value value)) }
    ensures err { IfErr result (λ e. (e.code ≡ ReadCode.NoMemory) × (e.at ≡ 0)) }
{
    if next >= end {
        return Ok(None);
    }
    put(stack, Task::Elements(form, next + 1, end, level, links))?;
    let spot = Spot {
        label: CompactLabel::Index(next),
        level,
        links,
    };
    Ok(Some((form, spot)))
}

/// The first value of a task and where it stands, if there is one; what is left of the task goes on the
/// stack.
#[inline(always)]
fn next_value(
    schema: &Schema,
    stack: &mut Vec<Task>,
    task: Task,
) -> Result<Option<(FormIndex, Spot)>, ReadFault>
    requires { IsTakenTask schema.now task stack.old.items }
    ensures ok { IfOk result (λ value. TakesTask schema.now task stack.old.items stack.new.items value) }
    ensures err { IfErr result (λ e. (e.code ≡ ReadCode.NoMemory) × (e.at ≡ 0)) }
{
    match task {
        Task::One(form, spot) => Ok(Some((form, spot))),
        Task::Fields(form, place, level, links) => {
            next_field(schema, stack, form, place, level, links)
        }
        Task::Elements(form, next, end, level, links) => {
            next_element(schema, stack, form, next, end, level, links)
        }
    }
}

/// Carries a task out, and gives the bytes behind those that it read.
#[inline(always)]
pub(crate) fn carry_out<'a>(
    schema: &Schema,
    message: &'a [u8],
    stack: &mut Vec<Task>,
    entries: &mut Vec<CompactNode>,
    task: Task,
    bytes: &'a [u8],
) -> Result<&'a [u8], ReadFault>
    requires sound { IsSound schema.now }
    requires taken { IsTakenTask schema.now task stack.old.items }
    requires rear { IsRear message.now bytes.now }
    ensures ok { IfOk result
        (λ rest. Turn schema.now message.now task stack.old.items entries.old.items bytes.now stack.new.items
        entries.new.items rest.now) }
    ensures err { IfErr result
        (λ e. Refused schema.now
        (jobs_of_task schema.now task ++ pending schema.now stack.old.items) bytes.now e.at e.code) }
{
    let Some((form, spot)) = next_value(schema, stack, task)? else {
        return Ok(bytes);
    };
    begin(schema, message, stack, entries, form, spot, bytes)
}

//! How many bytes the values of types take.

ghost use Rattle.std.specs.Prelude.{◌≡◌, IfOk, slice_get, string_bytes};
ghost use Rattle.x_schema.specs.Schema.{IsTypeId};
ghost use Rattle.x_lookups.specs.Sizes.{always, arm_size, both, choice_size, counted_size, either, form_size};
ghost use Rattle.x_lookups.specs.Sizes.{padded, size_at, size_of, size_text, times, with_arm, with_fields};
ghost use Rattle.x_lookups.specs.Sizes.{or_nothing, with_case};

use std::alloc::{AllocError, Global};
use x_schema::{Arm, Arms, Field, Form, FormIndex, Schema, TypeId};

/// How many bytes the values of a type take (RFC 4506, section 4).
#[derive(Clone, Copy, Debug, PartialEq, Eq)]
pub struct Size {
    /// No value takes fewer. It stays at the greatest number.
    least: u64,
    /// Whether each value takes so many.
    fixed: bool,
}

/// What takes no bytes.
const NOTHING: Size = Size {
    least: 0,
    fixed: true,
};

/// What a number, or a count of values, takes.
const WORD: Size = Size {
    least: 4,
    fixed: true,
};

impl Size {
    /// Always so many.
    fn always(bytes: u64) -> Size
        ensures { result ≡ always bytes }
    {
        Size {
            least: bytes,
            fixed: true,
        }
    }

    /// A count of at most so many values, and these.
    fn counted_size(most: u32) -> Size
        ensures { result ≡ counted_size most }
    {
        Size {
            least: 4,
            fixed: most == 0,
        }
    }

    /// Both, one behind the other.
    fn and(self, other: Size) -> Size
        ensures { result ≡ both self other }
    {
        Size {
            least: self.least.saturating_add(other.least),
            fixed: self.fixed && other.fixed,
        }
    }

    /// One of them.
    fn or(self, other: Size) -> Size
        ensures { result ≡ either self other }
    {
        Size {
            least: self.least.min(other.least),
            fixed: self.fixed && other.fixed && self.least == other.least,
        }
    }

    /// So many of it.
    fn times(self, count: u32) -> Size
        ensures { result ≡ times self count }
    {
        Size {
            least: self.least.saturating_mul(u64::from(count)),
            fixed: self.fixed || count == 0,
        }
    }

    /// Of the values of a type.
    ///
    /// # Errors
    ///
    /// [`AllocError`] where a list could not grow.
    pub fn of_type(alloc: Global, schema: &Schema, id: TypeId) -> Result<Size, AllocError>
        requires { IsTypeId schema.now id }
        ensures { IfOk result (λ size. size ≡ size_of schema.now id.form) }
    {
        let mut sizes = Vec::new(alloc);
        let whole = schema.form(id);
        for form in 0..id.form() {
            sizes.push(Size::of_form(&sizes, schema.form_at(form)))?;
        }
        Ok(Size::of_form(&sizes, whole))
    }

    /// Of the values of a form, by those of the forms before it.
    fn of_form(sizes: &[Size], form: &Form) -> Size
        ensures { result ≡ form_size sizes.now form.now }
    {
        match form {
            Form::Void => NOTHING,
            Form::Int | Form::UnsignedInt | Form::Float | Form::Bool | Form::Enum(_) => WORD,
            Form::Hyper | Form::UnsignedHyper | Form::Double => Size::always(8),
            Form::Quadruple => Size::always(16),
            Form::FixedOpaque(count) => Size::always(padded(*count)),
            Form::Opaque(most) | Form::String(most) | Form::Array(_, most) => Size::counted_size(
                *most,
            ),
            Form::FixedArray(element, count) => size_at(sizes, *element).times(*count),
            Form::Optional(_) => Size {
                least: 4,
                fixed: false,
            },
            Form::Struct(fields) => Size::of_fields(sizes, fields),
            Form::Union(discriminant, arms) => {
                size_at(sizes, discriminant.form).and(Size::of_arms(sizes, arms))
            }
        }
    }

    /// Of the fields of a struct.
    fn of_fields(sizes: &[Size], fields: &[Field]) -> Size
        ensures { result ≡ with_fields sizes.now (always 0) fields.now }
    {
        let mut size = NOTHING;
        for field in fields {
            size = size.and(size_at(sizes, field.form));
        }
        size
    }

    /// Of what stands behind the discriminant of a union.
    fn of_arms(sizes: &[Size], arms: &Arms) -> Size
        ensures { result ≡ choice_size sizes.now arms.now }
    {
        let mut size = match arms.default() {
            Some(arm) => Some(of_arm(sizes, arm)),
            None => None,
        };
        for index in 0..arms.case_count() {
            size = with_case(sizes, size, arms, index);
        }
        or_nothing(size)
    }

    /// In words.
    ///
    /// # Errors
    ///
    /// [`AllocError`] where the text could not grow.
    pub fn told(self, alloc: Global) -> Result<String, AllocError>
        ensures { IfOk result (λ text. string_bytes text ≡ size_text self) }
    {
        let bytes = self.least;
        if self.fixed {
            format!(in alloc; "{bytes} bytes")
        } else {
            format!(in alloc; "at least {bytes} bytes")
        }
    }
}

/// So many bytes, and zeros up to a multiple of four (section 4.9).
fn padded(bytes: u32) -> u64
    ensures { result ≡ padded bytes }
{
    let bytes = u64::from(bytes);
    bytes + (4 - bytes % 4) % 4
}

/// What is found of a union so far, or the case at a place more.
fn with_case(sizes: &[Size], size: Option<Size>, arms: &Arms, index: usize) -> Option<Size>
    ensures { result ≡ with_case sizes.now size (slice_get arms.now.cases index) }
{
    match arms.case(index) {
        Some((_, arm)) => Some(with_arm(sizes, size, arm)),
        None => size,
    }
}

/// What is found of a union so far, or one arm more.
fn with_arm(sizes: &[Size], size: Option<Size>, arm: Arm) -> Size
    ensures { result ≡ with_arm sizes.now size arm }
{
    match size {
        Some(size) => size.or(of_arm(sizes, arm)),
        None => of_arm(sizes, arm),
    }
}

fn of_arm(sizes: &[Size], arm: Arm) -> Size
    ensures { result ≡ arm_size sizes.now arm }
{
    match arm {
        Arm::Void => NOTHING,
        Arm::Of(field) => size_at(sizes, field.form),
    }
}

/// The size of a form.
fn size_at(sizes: &[Size], form: FormIndex) -> Size
    ensures { result ≡ size_at sizes.now form }
{
    match sizes.get(form) {
        Some(size) => *size,
        None => NOTHING,
    }
}

fn or_nothing(size: Option<Size>) -> Size
    ensures { result ≡ or_nothing size }
{
    match size {
        Some(size) => size,
        None => NOTHING,
    }
}

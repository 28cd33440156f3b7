//! What a type is (RFC 4506, section 4).
ghost use Rattle.std.specs.Prelude.{◌≡◌, IfSome, Some, length, slice_get};
ghost use Rattle.x_schema.specs.Choices.{Choice, arm_for, name_for};

use std::alloc::Global;
use std::marker::Model;
use x_hash::KeyedTable;
use x_text::NoMemory;

/// A place in a schema's list of names.
pub type NameIndex = u32;

/// A place in a schema's list of forms.
pub type FormIndex = usize;

/// A place in a schema's list of links: a link may lead to a form that stands further behind.
pub type LinkIndex = usize;

/// A value with a name: a field of a struct, a union's discriminant, or what stands in an arm.
#[derive(Clone, Copy, Debug, PartialEq, Eq)]
pub struct Field {
    /// The declared name.
    pub name: NameIndex,
    /// What it is.
    pub form: FormIndex,
}

/// What stands behind a discriminant (RFC 4506, section 4.15).
#[derive(Clone, Copy, Debug, PartialEq, Eq)]
pub enum Arm {
    /// Nothing.
    Void,
    /// A value with a name.
    Of(Field),
}

/// The names of an enum by their numbers, each number as the word of four bytes that stands for it (RFC 4506,
/// section 4.3). A number has the first name that the text gives it. They are seen as a list of words with
/// their names.
#[derive(Drop)]
pub struct Enumerators {
    pub(crate) names: KeyedTable<u32, NameIndex>,
}

impl Model for Enumerators {
    ghost use Rattle.std.specs.Prelude.{ℕ, List};

    ghost Value = { List (ℕ × ℕ) };

    ghost view = { λ e. e.names.entries };
}

impl Enumerators {
    /// The name of the number that the word stands for, if the enum has it.
    pub fn name(&self, word: u32) -> Option<NameIndex>
        ensures { result ≡ name_for self.now word }
    {
        self.names.get(&word).copied()
    }

    /// How many numbers the enum has.
    pub fn len(&self) -> usize
        ensures { result ≡ length self.now }
    {
        self.names.len()
    }

    /// The number at a place, in the order of the text, as the word that stands for it, with its name.
    pub fn get(&self, index: usize) -> Option<(u32, NameIndex)>
        ensures entry { result ≡ slice_get self.now index }
        ensures named { IfSome result (λ entry. name_for self.now entry.0 ≡ Some entry.1) }
    {
        match self.names.get_index(index) {
            Some((word, name)) => Some((*word, *name)),
            None => None,
        }
    }
}

/// What stands behind each number of a discriminant, each as the word of four bytes that stands for it (RFC
/// 4506, section 4.15).
#[derive(Drop)]
pub struct Arms {
    pub(crate) cases: KeyedTable<u32, Arm>,
    pub(crate) default: Option<Arm>,
}

impl Model for Arms {
    ghost use Rattle.x_schema.specs.Choices.{Choice};

    ghost Value = { Choice };

    ghost view = { λ a. record { cases = a.cases.entries; default = a.default } };
}

impl Arms {
    /// What stands behind the number that the word stands for: the arm of its case, else that of `default`.
    pub fn arm(&self, word: u32) -> Option<Arm>
        ensures { result ≡ arm_for self.now word }
    {
        match self.cases.get(&word) {
            Some(arm) => Some(*arm),
            None => self.default,
        }
    }

    /// How many numbers have a case.
    pub fn case_count(&self) -> usize
        ensures { result ≡ length self.now.cases }
    {
        self.cases.len()
    }

    /// The number at a place, in the order of the text, as the word that stands for it, with its arm.
    pub fn case(&self, index: usize) -> Option<(u32, Arm)>
        ensures entry { result ≡ slice_get self.now.cases index }
        ensures chosen { IfSome result (λ entry. arm_for self.now entry.0 ≡ Some entry.1) }
    {
        match self.cases.get_index(index) {
            Some((word, arm)) => Some((*word, *arm)),
            None => None,
        }
    }

    /// What stands behind all other numbers, if anything may.
    pub fn default(&self) -> Option<Arm>
        ensures { result ≡ self.now.default }
    {
        self.default
    }
}

/// What a type is, its parts by their places. Typedefs are resolved: none is left in a form.
#[derive(Drop)]
pub enum Form {
    /// Nothing (section 4.16)
    Void,
    /// `int` or `long` (section 4.1)
    Int,
    /// `unsigned int` or `unsigned long` (section 4.2)
    UnsignedInt,
    /// `hyper` (section 4.5)
    Hyper,
    /// `unsigned hyper` (section 4.5)
    UnsignedHyper,
    /// `float` (section 4.6)
    Float,
    /// `double` (section 4.7)
    Double,
    /// `quadruple` (section 4.8)
    Quadruple,
    /// `bool` (section 4.4)
    Bool,
    /// An enum (section 4.3)
    Enum(Enumerators),
    /// `opaque x[n]`: so many bytes (section 4.9)
    FixedOpaque(u32),
    /// `opaque x<m>`: at most so many bytes (section 4.10)
    Opaque(u32),
    /// `string x<m>`: at most so many bytes (section 4.11)
    String(u32),
    /// `T x[n]`: so many values (section 4.12)
    FixedArray(FormIndex, u32),
    /// `T x<m>`: at most so many values, each of which has one more link open around it (section 4.13)
    Array(LinkIndex, u32),
    /// `T *x`: nothing or a value, which has one more link open around it (section 4.19)
    Optional(LinkIndex),
    /// A struct: values behind one another (section 4.14)
    Struct(Vec<Field>),
    /// A union: a discriminant, and what stands behind it (section 4.15)
    Union(Field, Arms),
}

//! Declarations, with the types and bodies that stand in them.
ghost use Rattle.std.specs.Prelude.{◌≡◌, length, IfOk};
ghost use Rattle.x_trees.specs.Declarations.{name_of, is_void};
ghost use Rattle.x_trees.specs.Spell.{spell_basic};
ghost use Rattle.x_trees.specs.Tree.{Inline, Struct, Union};
ghost use Rattle.x_trees.specs.View.{view_type, view_body, view_declaration, view_declarations, view_arms};
ghost use Rattle.x_trees.specs.View.{view_default};

use super::{Spelling, Value, fitted};
use std::alloc::{AllocError, Global};

/// How many inline bodies may stand inside one another at the most.
pub const MOST_INLINE: u32 = 32;

/// How many elements an array has.
#[derive(Debug, Drop)]
pub enum Length {
    /// `[12]`: so many.
    Fixed(Value),
    /// `<12>` or `<>`: at most so many, or any number.
    Variable(Option<Value>),
}

/// What stands around the name that a declaration gives to a value of a type.
#[derive(Debug, Drop)]
pub enum Shape {
    /// `int x`
    Plain,
    /// `int *x`
    Optional,
    /// `int x[12]` or `int x<12>`
    Array(Length),
}

/// A type that is spelled by keywords alone.
#[derive(Clone, Copy, Debug, PartialEq, Eq)]
pub enum Basic {
    /// `int`
    Int,
    /// `unsigned int`
    UnsignedInt,
    /// `long`
    Long,
    /// `unsigned long`
    UnsignedLong,
    /// `hyper`
    Hyper,
    /// `unsigned hyper`
    UnsignedHyper,
    /// `unsigned`
    Unsigned,
    /// `float`
    Float,
    /// `double`
    Double,
    /// `quadruple`
    Quadruple,
    /// `bool`
    Bool,
}

impl Basic {
    /// How many words spell the type.
    pub fn word_count(self) -> usize
        ensures { result ≡ length (spell_basic self) }
    {
        match self {
            Basic::UnsignedInt | Basic::UnsignedLong | Basic::UnsignedHyper => 2,
            _ => 1,
        }
    }
}

/// The keyword in front of a body, or of the name of a type that has one.
#[derive(Clone, Copy, Debug, PartialEq, Eq)]
pub enum Tag {
    /// `enum`
    Enum,
    /// `struct`
    Struct,
    /// `union`
    Union,
}

/// A name of an enum, with its value where it is given.
#[derive(Debug, Drop)]
pub struct Enumerator {
    /// Its name.
    pub name: Spelling,
    /// Its value, where it is given.
    pub value: Option<Value>,
}

/// A type.
#[cycle(tree)]
pub enum DataType {
    /// `int`, `unsigned hyper`, `bool` and the like
    Basic(Basic),
    /// `colour`
    Named(Spelling),
    /// `enum colour`
    Tagged { tag: Tag, name: Spelling },
    /// A type without a name: its keyword and its body.
    Inline(Box<Body>),
}

/// What is written behind the keyword and the name of a type.
#[cycle(tree)]
pub enum Body {
    /// `{ RED = 1, GREEN }`, of an enum
    Enum(Vec<Enumerator>),
    /// `{ int x; int y; }`, of a struct
    Struct(Vec<Declaration>),
    /// `switch (int kind) { case 1: int x; default: void; }`, of a union
    Union(Box<UnionBody>),
}

/// A declaration.
#[cycle(tree)]
pub enum Declaration {
    /// `void`
    Void,
    /// `int x`, `int *x`, `int x[12]` or `int x<12>`
    Of {
        data: DataType,
        name: Spelling,
        shape: Shape,
    },
    /// `opaque x[12]` or `opaque x<12>`
    Opaque {
        name: Spelling,
        length: Length,
    },
    /// `string x<12>` or `string x<>`
    String {
        name: Spelling,
        most: Option<Value>,
    },
}

impl Declaration {
    /// The name that is declared; `void` declares none.
    pub fn name(&self) -> &[u8]
        ensures { result.now ≡ name_of (view_declaration self.now) }
    {
        match self {
            Declaration::Void => b"",
            Declaration::Of { name, .. } => name,
            Declaration::Opaque { name, .. } => name,
            Declaration::String { name, .. } => name,
        }
    }

    /// Whether nothing is declared.
    pub fn is_void(&self) -> bool
        ensures { result ≡ is_void (view_declaration self.now) }
    {
        matches!(self, Declaration::Void)
    }
}

/// The body of a union.
#[cycle(tree)]
pub struct UnionBody {
    /// What is declared behind `switch`.
    pub discriminant: Declaration,
    /// The arms, in order.
    pub arms: Vec<Arm>,
    /// What is declared behind `default`.
    pub default: Option<Declaration>,
}

/// An arm of a union.
#[cycle(tree)]
pub struct Arm {
    /// The values behind `case`, in order.
    pub cases: Vec<Value>,
    /// What is declared behind them.
    pub declaration: Declaration,
}

/// The type of a body without a name.
pub fn inline(alloc: Global, body: Body) -> Result<DataType, AllocError>
    ensures { IfOk result (λ t. view_type t ≡ Inline (view_body body)) }
{
    Ok(DataType::Inline(Box::new(alloc, body)?))
}

/// The body of a struct.
pub fn struct_body(declarations: Vec<Declaration>) -> Body
    ensures { view_body result ≡ Struct (view_declarations declarations.items) }
{
    Body::Struct(fitted(declarations))
}

/// The body of a union.
pub fn union_body(
    alloc: Global,
    discriminant: Declaration,
    arms: Vec<Arm>,
    default: Option<Declaration>,
) -> Result<Body, AllocError>
    ensures { IfOk result (λ body. view_body body ≡ Union (view_declaration discriminant)
        (view_arms arms.items) (view_default default)) }
{
    let body = UnionBody {
        discriminant,
        arms: fitted(arms),
        default,
    };
    Ok(Body::Union(Box::new(alloc, body)?))
}

// How trees are let go, by hand: so that a crate which lets one go calls these, and need not prove anew how
// each kind of tree is let go.

impl Drop for DataType {
    #[cycle(let_go)]
    fn drop(self) {
        match self {
            DataType::Basic(_) => {}
            DataType::Named(_) => {}
            DataType::Tagged { tag: _, name: _ } => {}
            DataType::Inline(_) => {}
        }
    }
}

impl Drop for Body {
    #[cycle(let_go)]
    fn drop(self) {
        match self {
            Body::Enum(_) => {}
            Body::Struct(_) => {}
            Body::Union(_) => {}
        }
    }
}

impl Drop for Declaration {
    #[cycle(let_go)]
    fn drop(self) {
        match self {
            Declaration::Void => {}
            Declaration::Of {
                data: _,
                name: _,
                shape: _,
            } => {}
            Declaration::Opaque { name: _, length: _ } => {}
            Declaration::String { name: _, most: _ } => {}
        }
    }
}

impl Drop for UnionBody {
    #[cycle(let_go)]
    fn drop(self) {
        let UnionBody {
            discriminant: _,
            arms: _,
            default: _,
        } = self;
    }
}

impl Drop for Arm {
    #[cycle(let_go)]
    fn drop(self) {
        let Arm {
            cases: _,
            declaration: _,
        } = self;
    }
}

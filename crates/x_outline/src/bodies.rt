//! The bodies that stand in a definition, with the names of their fields and their cases.

ghost use Rattle.std.specs.Prelude.{◌≡◌, ◌+◌, ℕ, List, [], length, map, OnOk, IfOk};
ghost use Rattle.x_trees.specs.Collected.{Covers};
ghost use Rattle.x_outline.specs.Bodies.{star};
ghost use Rattle.x_trees.specs.Spell.{spell_length, spell_named, spell_enumerator, spell_other_enumerators};
ghost use Rattle.x_trees.specs.Spell.{spell_enumerators, spell_body};
ghost use Rattle.x_trees.specs.Tree.{Variable};
ghost use Rattle.x_trees.specs.View.{view_value, view_most, view_shape, view_length, view_enumerator};
ghost use Rattle.x_trees.specs.View.{view_type, view_body};
ghost use Rattle.x_trees.specs.View.{view_union, view_declaration, view_declarations, view_arms};
ghost use Rattle.x_trees.specs.View.{view_default};
ghost use Rattle.x_trees.specs.View.{view_definition};
ghost use Rattle.x_outline.specs.Bodies.{bodies};
ghost use Rattle.x_outline.specs.BodyWalks.{view_walk, view_body_at, stand, Passes, FindsType, FindsBody};
ghost use Rattle.x_outline.specs.BodyWalks.{FindsOwn};
ghost use Rattle.x_outline.specs.BodyWalks.{GoesName, GoesDeclaration, GoesFields, GoesCases, GoesArms};
ghost use Rattle.x_outline.specs.BodyWalks.{GoesDefault};
ghost use Rattle.x_outline.specs.BodyWalks.{GoesInside, FindsAll, AreFilled};
ghost use Rattle.x_trees.specs.Spell.{IsShort};

use crate::parts::{BodyAt, NameAt, ValueAt};
use std::alloc::Global;
use std::mem;
use x_text::NoMemory;
use x_trees::{
    Arm, Body, DataType, Declaration, Definition, Enumerator, Length, Shape, UnionBody, Value,
};

/// The names of fields and the cases of a body.
#[derive(Drop)]
struct Contents<'d> {
    fields: Vec<NameAt<'d>>,
    cases: Vec<ValueAt<'d>>,
    /// The word behind the declaration of the discriminant of a union.
    behind_discriminant: usize,
}

impl<'d> Contents<'d> {
    fn new(alloc: Global) -> Contents<'d>
        ensures fields { result.fields.items ≡ [] }
        ensures cases { result.cases.items ≡ [] }
    {
        Contents {
            fields: Vec::new(alloc),
            cases: Vec::new(alloc),
            behind_discriminant: 0,
        }
    }
}

/// A walk over a part of a definition, which has come to a word.
#[derive(Drop)]
pub struct BodyWalk<'d> {
    pub list: Vec<BodyAt<'d>>,
    pub word: usize,
}

/// How many words stand between the type of a declaration and its name.
fn words_before_name(shape: &Shape) -> usize
    ensures { result ≡ star (view_shape shape.now) }
{
    match shape {
        Shape::Optional => 1,
        _ => 0,
    }
}

/// How many words a greatest length is, with its brackets.
fn words_of_most(most: &Option<Value>) -> usize
    ensures { result ≡ length (spell_length (Variable (view_most most.now))) }
{
    match most {
        Some(_) => 3,
        None => 2,
    }
}

/// How many words the length of an array is, with its brackets.
fn words_of_length(size: &Length) -> usize
    ensures { result ≡ length (spell_length (view_length size.now)) }
{
    match size {
        Length::Fixed(_) => 3,
        Length::Variable(most) => words_of_most(most),
    }
}

/// How many words stand behind the name of a declaration.
fn words_behind_name(shape: &Shape) -> usize
    ensures { (name : List ℕ) → star (view_shape shape.now) + (1 + result)
        ≡ length (spell_named name (view_shape shape.now)) }
{
    match shape {
        Shape::Plain | Shape::Optional => 0,
        Shape::Array(length) => words_of_length(length),
    }
}

/// How many words an enumerator is.
pub fn words_of_enumerator(enumerator: &Enumerator) -> usize
    ensures { result ≡ length (spell_enumerator (view_enumerator enumerator.now)) }
{
    match &enumerator.value {
        Some(_) => 3,
        None => 1,
    }
}

impl<'d> BodyWalk<'d> {
    /// Goes over words without a body.
    pub fn skip(&mut self, words: usize)
        ensures { Passes self.old self.new words }
    {
        self.word = self.word.saturating_add(words);
    }

    /// Goes over the enumerators of an enum.
    fn enumerators(&mut self, enumerators: &[Enumerator])
        ensures { Passes self.old self.new
            (length (spell_enumerators (map view_enumerator enumerators.now))) }
    {
        match enumerators.split_first() {
            Some((first, others)) => {
                self.skip(words_of_enumerator(first));
                self.other_enumerators(others);
            }
            None => {}
        }
    }

    /// Goes over enumerators, each behind a comma.
    fn other_enumerators(&mut self, enumerators: &[Enumerator])
        ensures { Passes self.old self.new
            (length (spell_other_enumerators (map view_enumerator enumerators.now))) }
    {
        for enumerator in enumerators {
            self.skip(1);
            self.skip(words_of_enumerator(enumerator));
        }
    }

    /// Goes over a body.
    #[cycle(bodies)]
    fn inside(&mut self, alloc: Global, body: &'d Body) -> Result<Contents<'d>, NoMemory>
        ensures { IfOk result (λ contents. GoesInside self.old self.new (view_body body.now) contents) }
    {
        match body {
            Body::Enum(enumerators) => {
                self.skip(1);
                self.enumerators(enumerators);
                self.skip(1);
                Ok(Contents::new(alloc))
            }
            Body::Struct(declarations) => {
                let mut contents = Contents::new(alloc);
                self.skip(1);
                self.declarations(alloc, declarations, &mut contents)?;
                self.skip(1);
                Ok(contents)
            }
            Body::Union(body) => self.union(alloc, body),
        }
    }

    #[cycle(bodies)]
    fn union(&mut self, alloc: Global, body: &'d UnionBody) -> Result<Contents<'d>, NoMemory>
        ensures { IfOk result (λ contents. GoesInside self.old self.new (view_union body.now) contents) }
    {
        let mut contents = Contents::new(alloc);
        self.skip(2);
        self.declaration(alloc, &body.discriminant, &mut contents)?;
        let behind_discriminant = self.word;
        self.skip(2);
        self.arms(alloc, &body.arms, &mut contents)?;
        self.default(alloc, &body.default, &mut contents)?;
        contents.behind_discriminant = behind_discriminant;
        Ok(contents)
    }

    /// Goes over declarations, each with its `;`.
    #[cycle(bodies)]
    fn declarations(
        &mut self,
        alloc: Global,
        declarations: &'d [Declaration],
        contents: &mut Contents<'d>,
    ) -> Result<(), NoMemory>
        ensures { OnOk result (GoesFields (stand self.old contents.old) (stand self.new contents.new)
            (view_declarations declarations.now)) }
    {
        for declaration in declarations {
            self.declaration(alloc, declaration, contents)?;
            self.skip(1);
        }
        Ok(())
    }

    #[cycle(bodies)]
    fn arms(
        &mut self,
        alloc: Global,
        arms: &'d [Arm],
        contents: &mut Contents<'d>,
    ) -> Result<(), NoMemory>
        ensures { OnOk result (GoesArms (stand self.old contents.old) (stand self.new contents.new)
            (view_arms arms.now)) }
    {
        for arm in arms {
            self.cases(&arm.cases, contents)?;
            self.declaration(alloc, &arm.declaration, contents)?;
            self.skip(1);
        }
        Ok(())
    }

    fn cases(&mut self, cases: &'d [Value], contents: &mut Contents<'d>) -> Result<(), NoMemory>
        ensures { OnOk result (GoesCases (stand self.old contents.old) (stand self.new contents.new)
            (map view_value cases.now)) }
    {
        for value in cases {
            self.skip(1);
            let word = self.word;
            contents.cases.push(ValueAt { word, value })?;
            self.skip(2);
        }
        Ok(())
    }

    /// Goes over the default arm, if there is one, and the `}` of a union.
    #[cycle(bodies)]
    fn default(
        &mut self,
        alloc: Global,
        default: &'d Option<Declaration>,
        contents: &mut Contents<'d>,
    ) -> Result<(), NoMemory>
        ensures { OnOk result (GoesDefault (stand self.old contents.old) (stand self.new contents.new)
            (view_default default.now)) }
    {
        match default {
            Some(declaration) => {
                self.skip(2);
                self.declaration(alloc, declaration, contents)?;
                self.skip(2);
                Ok(())
            }
            None => {
                self.skip(1);
                Ok(())
            }
        }
    }

    /// Goes over the word of a name, which is added to the fields.
    fn field(&mut self, name: &'d [u8], contents: &mut Contents<'d>) -> Result<(), NoMemory>
        ensures { OnOk result
            (GoesName (stand self.old contents.old) (stand self.new contents.new) name.now) }
    {
        let word = self.word;
        contents.fields.push(NameAt { word, name })?;
        self.skip(1);
        Ok(())
    }

    #[cycle(bodies)]
    fn declaration(
        &mut self,
        alloc: Global,
        declaration: &'d Declaration,
        contents: &mut Contents<'d>,
    ) -> Result<(), NoMemory>
        ensures { OnOk result (GoesDeclaration (stand self.old contents.old) (stand self.new contents.new)
            (view_declaration declaration.now)) }
    {
        match declaration {
            Declaration::Void => {
                self.skip(1);
                Ok(())
            }
            Declaration::Of { data, name, shape } => {
                self.data_type(alloc, data, words_before_name(shape))?;
                self.field(name, contents)?;
                self.skip(words_behind_name(shape));
                Ok(())
            }
            Declaration::Opaque { name, length } => {
                self.skip(1);
                self.field(name, contents)?;
                self.skip(words_of_length(length));
                Ok(())
            }
            Declaration::String { name, most } => {
                self.skip(1);
                self.field(name, contents)?;
                self.skip(words_of_most(most));
                Ok(())
            }
        }
    }

    /// Goes over a type, and so many words between it and the name that is declared.
    #[cycle(bodies)]
    fn data_type(
        &mut self,
        alloc: Global,
        tree: &'d DataType,
        before_name: usize,
    ) -> Result<(), NoMemory>
        ensures { OnOk result (FindsType self.old self.new before_name (view_type tree.now)) }
    {
        match tree {
            DataType::Basic(basic) => {
                self.skip(basic.word_count());
                self.skip(before_name);
                Ok(())
            }
            DataType::Named(_) => {
                self.skip(1);
                self.skip(before_name);
                Ok(())
            }
            DataType::Tagged { .. } => {
                self.skip(2);
                self.skip(before_name);
                Ok(())
            }
            DataType::Inline(body) => {
                self.skip(1);
                self.body(alloc, body, before_name)
            }
        }
    }

    /// Goes over a body, and so many words between it and the name that is declared.
    #[cycle(bodies)]
    fn body(&mut self, alloc: Global, body: &'d Body, before_name: usize) -> Result<(), NoMemory>
        ensures { OnOk result (FindsBody self.old self.new before_name (view_body body.now)) }
    {
        let at = self.word;
        let contents = self.inside(alloc, body)?;
        self.skip(before_name);
        self.list.push(BodyAt {
            named: self.word,
            at,
            body,
            fields: contents.fields,
            cases: contents.cases,
            behind_discriminant: contents.behind_discriminant,
        })?;
        Ok(())
    }

    /// Goes over a body that does not count.
    pub fn pass(&mut self, alloc: Global, body: &'d Body) -> Result<(), NoMemory>
        ensures { OnOk result (Covers (view_walk self.old) (view_walk self.new)
            (length (spell_body (view_body body.now))) (λ k. [])) }
    {
        let bodies = self.list.len();
        self.inside(alloc, body)?;
        self.list.truncate(bodies);
        Ok(())
    }

    /// Goes over the body that a definition is of, which stands in front of those inside it.
    fn own(&mut self, alloc: Global, body: &'d Body) -> Result<(), NoMemory>
        ensures { OnOk result (FindsOwn self.old self.new (view_body body.now)) }
    {
        let at = self.word;
        let contents = self.inside(alloc, body)?;
        let own = BodyAt {
            named: 1,
            at,
            body,
            fields: contents.fields,
            cases: contents.cases,
            behind_discriminant: contents.behind_discriminant,
        };
        self.list.insert(0, own)?;
        Ok(())
    }

    /// Goes over a definition, as far as bodies stand in it.
    fn definition(&mut self, alloc: Global, definition: &'d Definition) -> Result<(), NoMemory>
        ensures { OnOk result (FindsAll self.old self.new (view_definition definition.now)) }
    {
        match definition {
            Definition::Typedef(declaration) => {
                let mut contents = Contents::new(alloc);
                self.skip(1);
                self.declaration(alloc, declaration, &mut contents)
            }
            Definition::NewType { body, .. } => {
                self.skip(2);
                self.own(alloc, body)
            }
            Definition::Const { .. } => Ok(()),
            Definition::Program { .. } => Ok(()),
        }
    }
}

/// The bodies of the definition: its own first, and each other behind those inside it. Nothing inside an
/// inline type that is an argument or a result counts. They take the memory of what was in the list.
pub fn bodies_into<'d>(
    alloc: Global,
    list: &mut Vec<BodyAt<'d>>,
    definition: &'d Definition,
) -> Result<(), NoMemory>
    ensures bodies { OnOk result (IsShort (view_definition definition.now)
        → map view_body_at list.new.items ≡ bodies (view_definition definition.now)) }
    ensures filled { OnOk result (IsShort (view_definition definition.now) → AreFilled list.new.items) }
{
    let mut walk = BodyWalk {
        list: mem::replace(list, Vec::new(alloc)),
        word: 0,
    };
    walk.list.clear();
    walk.definition(alloc, definition)?;
    *list = walk.list;
    Ok(())
}

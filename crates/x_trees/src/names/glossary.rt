//! What the words of a definition are: the names that it declares, those that it uses, and what the rules ask
//! of beside them.
ghost use Rattle.std.specs.Prelude.{◌≡◌, ◌+◌, ◌<◌, ◌^◌, ℕ, List, [], ◌∷◌, ◌++◌, length, map, Some, true};
ghost use Rattle.std.specs.Prelude.{false};
ghost use Rattle.std.specs.Prelude.{OnOk, IfOk};
ghost use Rattle.std.specs.Cow.{cow_slice_items};
ghost use Rattle.x_trees.specs.Tree.{Void, Inline, Typed};
ghost use Rattle.x_trees.specs.View.{view_value, view_most, view_length, view_shape, view_enumerator};
ghost use Rattle.x_trees.specs.View.{view_type, view_body, view_declaration, view_declarations, view_arms};
ghost use Rattle.x_trees.specs.View.{view_default, view_argument, view_passed, view_procedure, view_version};
ghost use Rattle.x_trees.specs.View.{view_definition};
ghost use Rattle.x_trees.specs.Words.{Name};
ghost use Rattle.x_trees.specs.Gloss.{InlineArgument as InlineRole, VoidResult, VoidArgument, glossed};
ghost use Rattle.x_trees.specs.Gloss.{value_roles, leading_roles, name_roles, lifted_roles, name_inside};
ghost use Rattle.x_trees.specs.Gloss.{spell_value, most_by, length_by, named_by, enumerator_by};
ghost use Rattle.x_trees.specs.Gloss.{other_enumerators_by, enumerators_by, cases_by, type_by, body_by};
ghost use Rattle.x_trees.specs.Gloss.{declaration_by, declarations_by, arms_by, default_by, argument_by};
ghost use Rattle.x_trees.specs.Gloss.{passed_by, others_by, procedure_by, procedures_by, versions_by};
ghost use Rattle.x_trees.specs.Spell.{spell};
ghost use Rattle.x_trees.specs.Names.{declared, declared_at};
ghost use Rattle.x_trees.specs.Mentions.{mentioned, mentioned_at};
ghost use Rattle.x_trees.specs.Notes.{noted, noted_at, view_note, view_note_at};
ghost use Rattle.x_trees.specs.Collected.{view_name, view_mention, Finds, Reads, ReadsAll, site_in, role_of};
ghost use Rattle.x_trees.specs.Collected.{roles_of_lifted, IsOutside};
ghost use Rattle.x_trees.specs.Notes.{NumberNote};

use super::declared_name::lifted_name;
use super::{DeclaredName, Mention, NameKind, Note, NoteAt, Use, ValueRole};
use crate::trees::{
    Argument, Arm, Body, DataType, Declaration, Definition, Enumerator, Length, Procedure, Shape,
    Tag, UnionBody, Value, Version,
};
use std::alloc::Global;
use std::borrow::CowSlice;
use std::mem;
use x_text::NoMemory;

/// The names in a definition, and what its words are beside them, each in the order of the words.
#[derive(Drop)]
pub struct Glossary<'d> {
    /// The names that it declares; at one word the own name comes first. What is written as an argument or a
    /// result declares none.
    pub declared: Vec<DeclaredName<'d>>,
    /// The names that it uses. What an inline type holds that is an argument or a result is no mention.
    pub mentioned: Vec<Mention<'d>>,
    /// What its words are to the rules beside that.
    pub notes: Vec<NoteAt<'d>>,
}

impl<'d> Glossary<'d> {
    /// One in which nothing stands.
    pub fn new(alloc: Global) -> Glossary<'d>
        ensures declared { result.declared.items ≡ [] }
        ensures mentioned { result.mentioned.items ≡ [] }
        ensures notes { result.notes.items ≡ [] }
    {
        Glossary {
            declared: Vec::new(alloc),
            mentioned: Vec::new(alloc),
            notes: Vec::new(alloc),
        }
    }

    /// Takes in what stands in the definition, in place of what was there: only its memory is used again. It
    /// takes time in proportion to the definition.
    ///
    /// # Errors
    ///
    /// [`NoMemory`] where a list, or a name in it, could not grow.
    pub fn read(&mut self, alloc: Global, definition: &'d Definition) -> Result<(), NoMemory>
        ensures declared { OnOk result (length (spell (view_definition definition.now)) < 2 ^ 64
            → map view_name self.new.declared.items ≡ declared (view_definition definition.now)) }
        ensures mentioned { OnOk result (length (spell (view_definition definition.now)) < 2 ^ 64
            → map view_mention self.new.mentioned.items ≡ mentioned (view_definition definition.now)) }
        ensures notes { OnOk result (length (spell (view_definition definition.now)) < 2 ^ 64
            → map view_note_at self.new.notes.items ≡ noted (view_definition definition.now)) }
    {
        let mut walk = Walk {
            glossary: mem::replace(self, Glossary::new(alloc)),
            word: 0,
        };
        walk.glossary.declared.clear();
        walk.glossary.mentioned.clear();
        walk.glossary.notes.clear();
        walk.definition(alloc, definition)?;
        *self = walk.glossary;
        Ok(())
    }
}

/// The names that the definition declares, in the order of their words; at one word the own name comes first.
/// What is written as an argument or a result declares none.
///
/// # Errors
///
/// [`NoMemory`] where the list, or a name in it, could not grow.
pub fn declares(alloc: Global, definition: &Definition) -> Result<Vec<DeclaredName<'_>>, NoMemory>
    ensures { IfOk result (λ found. length (spell (view_definition definition.now)) < 2 ^ 64
        → map view_name found.items ≡ declared (view_definition definition.now)) }
{
    let mut glossary = Glossary::new(alloc);
    glossary.read(alloc, definition)?;
    Ok(glossary.declared)
}

/// The names that the definition uses, in the order of their words. What an inline type holds that is an
/// argument or a result is no mention.
///
/// # Errors
///
/// [`NoMemory`] where the list could not grow.
pub fn mentions(alloc: Global, definition: &Definition) -> Result<Vec<Mention<'_>>, NoMemory>
    ensures { IfOk result (λ found. length (spell (view_definition definition.now)) < 2 ^ 64
        → map view_mention found.items ≡ mentioned (view_definition definition.now)) }
{
    let mut glossary = Glossary::new(alloc);
    glossary.read(alloc, definition)?;
    Ok(glossary.mentioned)
}

/// Where a declaration stands.
#[derive(Clone, Copy, Debug, PartialEq, Eq)]
enum Site {
    Typedef,
    Field,
    Discriminant,
    Arm,
}

/// The name of an inline type, and what it is declared as.
#[derive(Drop)]
struct Lifted {
    name: Vec<u8>,
    kind: NameKind,
}

/// The name of an inline type in a declaration of the name, which stands in the type that `around` names or
/// behind `typedef`.
fn name_inside(alloc: Global, site: Site, around: &[u8], name: &[u8]) -> Result<Vec<u8>, NoMemory>
    ensures { IfOk result
        (λ lifted. name_inside (Some (site_in site around.now)) name.now ≡ Some lifted.items) }
{
    match site {
        Site::Typedef => lifted_name(alloc, name, name),
        _ => lifted_name(alloc, around, name),
    }
}

/// A walk over a definition, which has come to a word.
#[derive(Drop)]
struct Walk<'d> {
    glossary: Glossary<'d>,
    word: usize,
}

impl<'d> Walk<'d> {
    /// Goes over words.
    fn skip(&mut self, words: usize)
        ensures { Finds self.old self.new words (λ k. []) (λ k. []) (λ k. []) }
    {
        self.word = self.word.saturating_add(words);
    }

    /// Takes in a name that the next word declares.
    fn declare(
        &mut self,
        name: CowSlice<'d, u8>,
        kind: NameKind,
        lifted: bool,
    ) -> Result<(), NoMemory>
        ensures { OnOk result (Finds self.old self.new 0 (λ k. record {
          name = cow_slice_items name.entry;
          word = k;
          kind = kind;
          lifted = lifted;
        } ∷ []) (λ k. []) (λ k. [])) }
    {
        self.glossary.declared.push(DeclaredName {
            name,
            word: self.word,
            kind,
            lifted,
        })?;
        Ok(())
    }

    /// Takes in a name that the next word uses.
    fn mention(&mut self, name: &'d [u8], usage: Use, tag: Option<Tag>) -> Result<(), NoMemory>
        ensures { OnOk result (Finds self.old self.new 0 (λ k. [])
            (λ k. record { name = name.now; word = k; usage = usage; tag = tag } ∷ []) (λ k. [])) }
    {
        self.glossary.mentioned.push(Mention {
            name,
            word: self.word,
            usage,
            tag,
        })?;
        Ok(())
    }

    /// Takes a note of the next word.
    fn note(&mut self, note: Note<'d>) -> Result<(), NoMemory>
        ensures { OnOk result (Finds self.old self.new 0 (λ k. []) (λ k. [])
            (λ k. record { word = k; note = view_note note.entry } ∷ [])) }
    {
        self.glossary.notes.push(NoteAt {
            word: self.word,
            note,
        })?;
        Ok(())
    }

    fn value(&mut self, role: ValueRole, value: &'d Value) -> Result<(), NoMemory>
        ensures { OnOk result (Reads self.old self.new (glossed (spell_value (view_value value.now))
            (value_roles (role_of role (view_value value.now)) (view_value value.now)) ∷ [])) }
    {
        match value {
            Value::Number(_) => {}
            Value::Named(name) => self.mention(name, Use::Value, None)?,
        }
        self.note(Note::Value { role, value })?;
        self.skip(1);
        Ok(())
    }

    fn most(&mut self, most: &'d Option<Value>) -> Result<(), NoMemory>
        ensures { OnOk result (Reads self.old self.new (most_by glossed true (view_most most.now))) }
    {
        match most {
            Some(value) => self.value(ValueRole::GreatestSize, value),
            None => Ok(()),
        }
    }

    fn brackets(&mut self, size: &'d Length) -> Result<(), NoMemory>
        ensures { OnOk result (Reads self.old self.new (length_by glossed true (view_length size.now))) }
    {
        match size {
            Length::Fixed(size) => {
                self.skip(1);
                self.value(ValueRole::FixedSize, size)?;
                self.skip(1);
                Ok(())
            }
            Length::Variable(most) => {
                self.skip(1);
                self.most(most)?;
                self.skip(1);
                Ok(())
            }
        }
    }

    /// Takes in the name of a declaration, if that declares it.
    fn own_name(&mut self, site: Site, name: &'d [u8]) -> Result<(), NoMemory>
        ensures { OnOk result ((around : List ℕ) → Finds self.old self.new 0
            (λ k. declared_at k (name_roles (Some (site_in site around)) name.now)) (λ k. []) (λ k. [])) }
    {
        match site {
            Site::Typedef => { self.declare(CowSlice::Borrowed(name), NameKind::Typedef, false) }
            _ => Ok(()),
        }
    }

    /// Takes in the name of an inline type, if there is one.
    fn inline_name(&mut self, lifted: Option<Lifted>) -> Result<(), NoMemory>
        ensures { OnOk result
            (Finds self.old self.new 0 (λ k. declared_at k (roles_of_lifted lifted)) (λ k. []) (λ k. [])) }
    {
        match lifted {
            Some(lifted) => self.declare(CowSlice::Owned(lifted.name), lifted.kind, true),
            None => Ok(()),
        }
    }

    /// Goes over the name of a declaration.
    fn name_word(
        &mut self,
        site: Site,
        name: &'d [u8],
        lifted: Option<Lifted>,
    ) -> Result<(), NoMemory>
        ensures { OnOk result ((around : List ℕ) → Reads self.old self.new (glossed (Name name.now)
            (name_roles (Some (site_in site around)) name.now ++ roles_of_lifted lifted) ∷ [])) }
    {
        self.own_name(site, name)?;
        self.inline_name(lifted)?;
        self.skip(1);
        Ok(())
    }

    /// Goes over the name of a declaration and what stands around it.
    fn declarator(
        &mut self,
        site: Site,
        name: &'d [u8],
        lifted: Option<Lifted>,
        shape: &'d Shape,
    ) -> Result<(), NoMemory>
        ensures { OnOk result ((around : List ℕ) → Reads self.old self.new (named_by glossed true
            (name_roles (Some (site_in site around)) name.now ++ roles_of_lifted lifted) name.now
            (view_shape shape.now))) }
    {
        match shape {
            Shape::Plain => self.name_word(site, name, lifted),
            Shape::Optional => {
                self.skip(1);
                self.name_word(site, name, lifted)
            }
            Shape::Array(length) => {
                self.name_word(site, name, lifted)?;
                self.brackets(length)
            }
        }
    }

    fn enumerator(&mut self, enumerator: &'d Enumerator) -> Result<(), NoMemory>
        ensures { OnOk result (Reads self.old self.new
            (enumerator_by glossed true (view_enumerator enumerator.now))) }
    {
        let name = CowSlice::Borrowed(&enumerator.name);
        self.declare(name, NameKind::Constant, false)?;
        self.skip(1);
        match &enumerator.value {
            Some(value) => {
                self.skip(1);
                self.value(ValueRole::Enumerator, value)
            }
            None => Ok(()),
        }
    }

    fn enumerators(&mut self, enumerators: &'d [Enumerator]) -> Result<(), NoMemory>
        ensures { OnOk result (Reads self.old self.new
            (enumerators_by glossed true (map view_enumerator enumerators.now))) }
    {
        match enumerators.split_first() {
            Some((first, others)) => {
                self.enumerator(first)?;
                self.other_enumerators(others)
            }
            None => Ok(()),
        }
    }

    fn other_enumerators(&mut self, enumerators: &'d [Enumerator]) -> Result<(), NoMemory>
        ensures { OnOk result (Reads self.old self.new
            (other_enumerators_by glossed true (map view_enumerator enumerators.now))) }
    {
        for enumerator in enumerators {
            self.skip(1);
            self.enumerator(enumerator)?;
        }
        Ok(())
    }

    fn cases(&mut self, cases: &'d [Value]) -> Result<(), NoMemory>
        ensures { OnOk result (Reads self.old self.new (cases_by glossed true (map view_value cases.now))) }
    {
        for case in cases {
            self.skip(1);
            self.value(ValueRole::Case, case)?;
            self.skip(1);
        }
        Ok(())
    }

    /// Goes over the type in a declaration of the name, and gives the name of the type where it is an inline
    /// one.
    #[cycle(walk)]
    fn data_type(
        &mut self,
        alloc: Global,
        site: Site,
        around: &[u8],
        name: &[u8],
        usage: Use,
        tree: &'d DataType,
    ) -> Result<Option<Lifted>, NoMemory>
        ensures lifted { IfOk result (λ lifted. roles_of_lifted lifted
            ≡ lifted_roles (name_inside (Some (site_in site around.now)) name.now) (view_type tree.now)) }
        ensures reads { OnOk result (Reads self.old self.new (type_by glossed [] (Some usage)
            (name_inside (Some (site_in site around.now)) name.now) (view_type tree.now))) }
    {
        match tree {
            DataType::Basic(basic) => {
                self.skip(basic.word_count());
                Ok(None)
            }
            DataType::Named(named) => {
                self.mention(named, usage, None)?;
                self.skip(1);
                Ok(None)
            }
            DataType::Tagged { tag, name: named } => {
                self.skip(1);
                self.mention(named, usage, Some(*tag))?;
                self.skip(1);
                Ok(None)
            }
            DataType::Inline(body) => {
                let lifted = name_inside(alloc, site, around, name)?;
                self.skip(1);
                self.body(alloc, &lifted, body)?;
                Ok(Some(Lifted {
                    name: lifted,
                    kind: NameKind::of_body(body),
                }))
            }
        }
    }

    /// Goes over the body of the type that `around` names.
    #[cycle(walk)]
    fn body(&mut self, alloc: Global, around: &[u8], body: &'d Body) -> Result<(), NoMemory>
        ensures { OnOk result (Reads self.old self.new
            (body_by glossed (Some around.now) (view_body body.now))) }
    {
        match body {
            Body::Enum(enumerators) => {
                self.skip(1);
                self.enumerators(enumerators)?;
                self.skip(1);
                Ok(())
            }
            Body::Struct(declarations) => {
                self.skip(1);
                self.declarations(alloc, around, declarations)?;
                self.skip(1);
                Ok(())
            }
            Body::Union(body) => {
                let body: &UnionBody = body;
                self.skip(2);
                self.declaration(alloc, Site::Discriminant, around, &body.discriminant)?;
                self.skip(2);
                self.arms(alloc, around, &body.arms)?;
                self.default(alloc, around, &body.default)
            }
        }
    }

    /// Takes note of the first word of a declaration.
    fn leading(&mut self, site: Site, declaration: &'d Declaration) -> Result<(), NoMemory>
        ensures { OnOk result ((around : List ℕ) → Finds self.old self.new 0 (λ k. []) (λ k. [])
            (λ k. noted_at k (leading_roles (Some (site_in site around))
            (view_declaration declaration.now)))) }
    {
        match site {
            Site::Discriminant => self.note(Note::Discriminant(declaration)),
            _ => Ok(()),
        }
    }

    /// Goes over a `void`.
    fn void(&mut self, site: Site, declaration: &'d Declaration) -> Result<(), NoMemory>
        ensures { OnOk result ((around : List ℕ) → view_declaration declaration.now ≡ Void
            → Reads self.old self.new (declaration_by glossed (Some (site_in site around)) Void)) }
    {
        match site {
            Site::Arm => {}
            Site::Discriminant => {
                self.note(Note::Misplaced)?;
                self.note(Note::Discriminant(declaration))?;
            }
            _ => self.note(Note::Misplaced)?,
        }
        self.skip(1);
        Ok(())
    }

    #[cycle(walk)]
    fn declaration(
        &mut self,
        alloc: Global,
        site: Site,
        around: &[u8],
        declaration: &'d Declaration,
    ) -> Result<(), NoMemory>
        ensures { OnOk result (Reads self.old self.new
            (declaration_by glossed (Some (site_in site around.now)) (view_declaration declaration.now))) }
    {
        match declaration {
            Declaration::Void => self.void(site, declaration),
            Declaration::Of { data, name, shape } => {
                self.leading(site, declaration)?;
                let usage = Use::of_type(shape);
                let lifted = self.data_type(alloc, site, around, name, usage, data)?;
                self.declarator(site, name, lifted, shape)
            }
            Declaration::Opaque { name, length } => {
                self.leading(site, declaration)?;
                self.skip(1);
                self.name_word(site, name, None)?;
                self.brackets(length)
            }
            Declaration::String { name, most } => {
                self.leading(site, declaration)?;
                self.skip(1);
                self.name_word(site, name, None)?;
                self.skip(1);
                self.most(most)?;
                self.skip(1);
                Ok(())
            }
        }
    }

    /// Goes over declarations, each with its `;`.
    #[cycle(walk)]
    fn declarations(
        &mut self,
        alloc: Global,
        around: &[u8],
        declarations: &'d [Declaration],
    ) -> Result<(), NoMemory>
        ensures { OnOk result (Reads self.old self.new
            (declarations_by glossed (Some around.now) (view_declarations declarations.now))) }
    {
        for declaration in declarations {
            self.declaration(alloc, Site::Field, around, declaration)?;
            self.skip(1);
        }
        Ok(())
    }

    #[cycle(walk)]
    fn arms(&mut self, alloc: Global, around: &[u8], arms: &'d [Arm]) -> Result<(), NoMemory>
        ensures { OnOk result
            (Reads self.old self.new (arms_by glossed (Some around.now) (view_arms arms.now))) }
    {
        for arm in arms {
            self.cases(&arm.cases)?;
            self.declaration(alloc, Site::Arm, around, &arm.declaration)?;
            self.skip(1);
        }
        Ok(())
    }

    /// Goes over the default arm, if there is one, and the `}` of a union.
    #[cycle(walk)]
    fn default(
        &mut self,
        alloc: Global,
        around: &[u8],
        default: &'d Option<Declaration>,
    ) -> Result<(), NoMemory>
        ensures { OnOk result (Reads self.old self.new
            (default_by glossed (Some around.now) (view_default default.now))) }
    {
        match default {
            Some(declaration) => {
                self.skip(2);
                self.declaration(alloc, Site::Arm, around, declaration)?;
                self.skip(2);
                Ok(())
            }
            None => {
                self.skip(1);
                Ok(())
            }
        }
    }

    /// Goes over an inline type, of which only the first word is noted.
    fn inline_argument(&mut self, alloc: Global, body: &'d Body) -> Result<(), NoMemory>
        ensures { OnOk result (Reads self.old self.new
            (type_by glossed (InlineRole ∷ []) (Some Use.ByValue) None (Inline (view_body body.now)))) }
    {
        self.note(Note::InlineArgument)?;
        self.skip(1);
        let declared = self.glossary.declared.len();
        let mentioned = self.glossary.mentioned.len();
        let notes = self.glossary.notes.len();
        self.body(alloc, b"", body)?;
        self.glossary.declared.truncate(declared);
        self.glossary.mentioned.truncate(mentioned);
        self.glossary.notes.truncate(notes);
        Ok(())
    }

    fn argument(&mut self, alloc: Global, argument: &'d Argument) -> Result<(), NoMemory>
        ensures { OnOk result (Reads self.old self.new
            (argument_by glossed true (view_argument argument.now))) }
    {
        match argument {
            Argument::String => {
                self.skip(1);
                Ok(())
            }
            Argument::Of(tree) => self.argument_type(alloc, tree),
        }
    }

    fn argument_type(&mut self, alloc: Global, tree: &'d DataType) -> Result<(), NoMemory>
        ensures { OnOk result (Reads self.old self.new
            (argument_by glossed true (Typed (view_type tree.now)))) }
    {
        match tree {
            DataType::Basic(_) => self.named_argument(alloc, tree),
            DataType::Named(_) => self.named_argument(alloc, tree),
            DataType::Tagged { .. } => self.named_argument(alloc, tree),
            DataType::Inline(body) => self.inline_argument(alloc, body),
        }
    }

    /// Goes over a type that is no inline one.
    fn named_argument(&mut self, alloc: Global, tree: &'d DataType) -> Result<(), NoMemory>
        ensures { OnOk result (IsOutside (view_type tree.now) → Reads self.old self.new
            (argument_by glossed true (Typed (view_type tree.now)))) }
    {
        self.data_type(alloc, Site::Typedef, b"", b"", Use::ByValue, tree)?;
        Ok(())
    }

    /// Goes over a result.
    fn result(&mut self, alloc: Global, returned: &'d Option<Argument>) -> Result<(), NoMemory>
        ensures { OnOk result (Reads self.old self.new
            (passed_by glossed true (VoidResult ∷ []) (view_passed returned.now))) }
    {
        match returned {
            Some(argument) => self.argument(alloc, argument),
            None => {
                self.skip(1);
                Ok(())
            }
        }
    }

    /// Goes over the first argument, behind which so many others stand.
    fn first_argument(
        &mut self,
        alloc: Global,
        first: &'d Option<Argument>,
        others: usize,
    ) -> Result<(), NoMemory>
        ensures { OnOk result (Reads self.old self.new
            (passed_by glossed true (VoidArgument others ∷ []) (view_passed first.now))) }
    {
        match first {
            Some(argument) => self.argument(alloc, argument),
            None if others == 0 => {
                self.skip(1);
                Ok(())
            }
            None => {
                self.note(Note::Misplaced)?;
                self.skip(1);
                Ok(())
            }
        }
    }

    fn others(&mut self, alloc: Global, others: &'d [Argument]) -> Result<(), NoMemory>
        ensures { OnOk result (Reads self.old self.new
            (others_by glossed true (map view_argument others.now))) }
    {
        for argument in others {
            self.skip(1);
            self.argument(alloc, argument)?;
        }
        Ok(())
    }

    fn procedure(&mut self, alloc: Global, procedure: &'d Procedure) -> Result<(), NoMemory>
        ensures { OnOk result (Reads self.old self.new
            (procedure_by glossed true (view_procedure procedure.now))) }
    {
        self.result(alloc, &procedure.result)?;
        self.skip(2);
        self.first_argument(alloc, &procedure.first, procedure.others.len())?;
        self.others(alloc, &procedure.others)?;
        self.skip(2);
        self.number(&procedure.number)?;
        self.skip(1);
        Ok(())
    }

    /// Goes over the number of a program, of a version or of a procedure.
    fn number(&mut self, number: &'d [u8]) -> Result<(), NoMemory>
        ensures { OnOk result (Finds self.old self.new 1 (λ k. []) (λ k. [])
            (λ k. record { word = k; note = NumberNote number.now } ∷ [])) }
    {
        self.note(Note::Number(number))?;
        self.skip(1);
        Ok(())
    }

    fn procedures(&mut self, alloc: Global, procedures: &'d [Procedure]) -> Result<(), NoMemory>
        ensures { OnOk result (Reads self.old self.new
            (procedures_by glossed true (map view_procedure procedures.now))) }
    {
        for procedure in procedures {
            self.procedure(alloc, procedure)?;
        }
        Ok(())
    }

    fn versions(&mut self, alloc: Global, versions: &'d [Version]) -> Result<(), NoMemory>
        ensures { OnOk result (Reads self.old self.new
            (versions_by glossed true (map view_version versions.now))) }
    {
        for version in versions {
            self.skip(3);
            self.procedures(alloc, &version.procedures)?;
            self.skip(2);
            self.number(&version.number)?;
            self.skip(1);
        }
        Ok(())
    }

    /// Goes over a keyword and the name behind it, which is declared.
    fn head(&mut self, name: &'d [u8], kind: NameKind) -> Result<(), NoMemory>
        ensures { OnOk result (Finds self.old self.new 2
            (λ k. record { name = name.now; word = k + 1; kind = kind; lifted = false } ∷ []) (λ k. [])
            (λ k. [])) }
    {
        self.skip(1);
        self.declare(CowSlice::Borrowed(name), kind, false)?;
        self.skip(1);
        Ok(())
    }

    /// Goes over a definition but for its last words, of which nothing is told.
    fn definition(&mut self, alloc: Global, definition: &'d Definition) -> Result<(), NoMemory>
        ensures { OnOk result (ReadsAll self.old self.new (view_definition definition.now)) }
    {
        match definition {
            Definition::Const { name, value } => {
                self.head(name, NameKind::Constant)?;
                self.skip(1);
                self.value(ValueRole::Constant, value)
            }
            Definition::Typedef(declaration) => {
                self.skip(1);
                self.declaration(alloc, Site::Typedef, b"", declaration)
            }
            Definition::NewType { name, body } => {
                self.head(name, NameKind::of_body(body))?;
                self.body(alloc, name, body)
            }
            Definition::Program {
                name,
                versions,
                number,
            } => {
                self.head(name, NameKind::Program)?;
                self.skip(1);
                self.versions(alloc, versions)?;
                self.skip(2);
                self.number(number)
            }
        }
    }
}

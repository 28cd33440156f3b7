//! How the types of a text are found.
ghost use Rattle.std.specs.Prelude.{◌≡◌, ◌<◌, ◌∷◌, ◌++◌, ℕ, [], get_or, length, map, pos, Some, IfOk, OnOk};
ghost use Rattle.std.specs.Prelude.{option_and_then};
ghost use Rattle.x_trees.specs.Gloss.{lifted_name, use_by};
ghost use Rattle.x_trees.specs.Tree as tree;
ghost use Rattle.x_trees.specs.View.{view_value, view_enumerator, view_type, view_body, view_union};
ghost use Rattle.x_trees.specs.View.{view_shape};
ghost use Rattle.x_trees.specs.View.{view_length, view_most, view_declaration, view_declarations, view_arms};
ghost use Rattle.x_trees.specs.View.{view_default, view_definition};
ghost use Rattle.x_trees.specs.declared.names.mention.Use.TheVariants as uses;
ghost use Rattle.x_schema.specs.Schema.{form_at, named_types, name_at};
ghost use Rattle.x_schema.specs.Schemas.{IsSchemaOf};
ghost use Rattle.x_schema.specs.SchemaOf.{IsArmOf, IsBody, IsDeclared, IsDefault, IsEnum};
ghost use Rattle.x_schema.specs.SchemaOf.{IsType, AreArms, AreFields};
ghost use Rattle.x_schema.specs.SchemaOf.{AreTypesOf, basic_form, case_word, enum_form};
ghost use Rattle.x_schema.specs.SchemaOf.{union_form, opaque_form};
ghost use Rattle.x_schema.specs.SchemaOf.{place_in, place_named, with_cases, with_first, with_word};
ghost use Rattle.x_schema.specs.SchemaOf.{word_by, words_from, as_typedef};
ghost use Rattle.x_schema.specs.SchemaOf.{typedefs, typedefs_inside, typedefs_of};
ghost use Rattle.x_schema.specs.SchemaOf.{typedefs_of_type, typedefs_of_fields};
ghost use Rattle.x_schema.specs.SchemaOf.{typedefs_of_arms, typedefs_of_default, signed_word};
ghost use Rattle.x_trees.specs.Declarations.{is_void, name_of};
ghost use Rattle.x_schema.specs.SchemaOf as schema;
ghost use Rattle.x_schema.specs.SchemaMaking.{AddsName, AddsForm, AddsLink, AddsFound};
ghost use Rattle.x_schema.specs.SchemaMaking.{Completes, IsGood, PutsAll, PutsPlace, PutsLink};
ghost use Rattle.x_schema.specs.ProcedureMaking.{AreKeptWithin};
ghost use Rattle.x_schema.specs.SchemaOf.{numbers_of};
ghost use Rattle.x_schema.specs.SchemaMaking.{AreSoundCases, AreSoundWords, IsStart};
ghost use Rattle.x_schema.specs.Sound.{IsSoundDefault};
ghost use Rattle.x_schema.specs.SchemaMaking.{FindsItem, FindsItems, TakesFound, with_found};
ghost use Rattle.x_schema.specs.SchemaMaking.{names_made, place_linked, words_named};
ghost use Rattle.x_trees.specs.View.{tree_at};
ghost use Rattle.std.specs.Map.{lookup};
ghost use Rattle.std.specs.Str.{bytes_eq};
ghost use Rattle.x_schema.specs.declared.form.Form.TheVariants as forms;
ghost use Rattle.x_schema.specs.Sound.{AreSoundFields, IsSoundArm, IsSoundField, is_legal};

use crate::constants::{Constants, signed_word, unsigned_word};
use crate::form::{Arm, Arms, Enumerators, Field, Form, FormIndex, LinkIndex, NameIndex};
use crate::procedures::ProcedureTable;
use crate::schema::{NamedType, Schema};
use indexmap::IndexMap;
use std::alloc::Global;
use std::marker::Model;
use x_hash::{HashKey, KeyedTable};
use x_numbers::next_number;
use x_text::NoMemory;
use x_trees::{
    Arm as ArmTree, Basic, Body, DataType, Declaration, Definition, Enumerator, Length, Shape,
    UnionBody, Value, lifted_name,
};

/// The types of names.
pub type TypeTable = KeyedTable<Vec<u8>, NamedType>;

/// What an item is read by. It is seen as the constants with their numbers, and the types of names.
#[derive(Drop)]
pub struct Known<'d> {
    constants: Constants<'d>,
    /// The types of the items before it.
    types: TypeTable,
    /// What the tables of names and of numbers hash by.
    pub(super) hash_key: HashKey,
}

impl<'d> Model for Known<'d> {
    ghost use Rattle.x_schema.specs.SchemaOf.{Known};

    ghost Value = { Known };

    ghost use Rattle.x_schema.specs.Schema.{named_types};

    ghost view = { λ k. record { numbers = k.constants; types = named_types k.types.entries } };
}

impl<'d> Known<'d> {
    /// What the first item is read by, in tables that hash by the key.
    fn of(
        alloc: Global,
        hash_key: HashKey,
        definitions: &[Option<&'d Definition>],
    ) -> Result<Known<'d>, NoMemory>
        ensures numbers { IfOk result (λ known. known.numbers ≡ numbers_of (map tree_at definitions.now)) }
        ensures types { IfOk result (λ known. known.types ≡ []) }
    {
        Ok(Known {
            constants: Constants::of(alloc, hash_key, definitions)?,
            types: IndexMap::with_hasher(alloc, hash_key),
            hash_key,
        })
    }

    fn constants(&self) -> &Constants<'d>
        ensures { result.now ≡ self.now.numbers }
    {
        &self.constants
    }

    /// The place of a type that is used by value; that of `void`, if no item before declares the name as a
    /// type.
    pub(super) fn place(&self, name: &[u8]) -> FormIndex
        ensures { result ≡ place_named self.now.types name.now }
    {
        place_named(&self.types, name)
    }
}

/// The type of the name, if it is one of these.
fn named(types: &TypeTable, name: &[u8]) -> Option<NamedType>
    ensures { result ≡ lookup (bytes_eq name.now) (named_types types.now.entries) }
{
    types.get(name).copied()
}

/// The place of the type of the name; that of `void`, if it is none of these.
fn place_named(types: &TypeTable, name: &[u8]) -> FormIndex
    ensures { result ≡ place_named (named_types types.now.entries) name.now }
{
    match named(types, name) {
        Some(named) => named.form,
        None => 0,
    }
}

/// What a link leads to.
#[derive(Clone, Copy, Debug)]
pub enum Link<'d> {
    /// The form at a place.
    To(FormIndex),
    /// The type of a name, which may stand further behind.
    Named(&'d [u8]),
}

/// The types of a text in the making.
#[derive(Drop)]
pub struct Maker<'d> {
    pub names: Vec<Vec<u8>>,
    pub forms: Vec<Form>,
    pub links: Vec<Link<'d>>,
    /// The types that the item declares.
    pub found: Vec<NamedType>,
}

/// The form of a type that is spelled by keywords alone.
pub(super) fn basic_form(basic: Basic) -> Form
    ensures { result ≡ basic_form basic }
{
    match basic {
        Basic::Int | Basic::Long => Form::Int,
        Basic::Unsigned | Basic::UnsignedInt | Basic::UnsignedLong => Form::UnsignedInt,
        Basic::Hyper => Form::Hyper,
        Basic::UnsignedHyper => Form::UnsignedHyper,
        Basic::Float => Form::Float,
        Basic::Double => Form::Double,
        Basic::Quadruple => Form::Quadruple,
        Basic::Bool => Form::Bool,
    }
}

/// The form of opaque data.
fn opaque_form(constants: &Constants, length: &Length) -> Form
    ensures { result ≡ opaque_form constants.now (view_length length.now) }
{
    match length {
        Length::Fixed(size) => Form::FixedOpaque(constants.size(size)),
        Length::Variable(most) => Form::Opaque(constants.limit(most)),
    }
}

/// The form of an enum; one without a number is `void`.
fn enum_form(names: KeyedTable<u32, NameIndex>) -> Form
    ensures { result ≡ enum_form names.entries }
{
    if names.is_empty() {
        return Form::Void;
    }
    Form::Enum(Enumerators { names })
}

/// The form of a union; one without a case is `void`.
fn union_form(discriminant: Field, cases: KeyedTable<u32, Arm>, default: Option<Arm>) -> Form
    ensures { result ≡ union_form discriminant (record { cases = cases.entries; default = default }) }
{
    if cases.is_empty() {
        return Form::Void;
    }
    Form::Union(discriminant, Arms { cases, default })
}

/// The word of an enumerator's number, if it is known and an enum may have it.
fn word_of(number: Option<i128>) -> Option<u32>
    ensures { result ≡ option_and_then signed_word number }
{
    match number {
        Some(number) => signed_word(number),
        None => None,
    }
}

/// Whether a discriminant of the form may have the number that the word stands for.
fn is_legal(form: &Form, word: u32) -> bool
    ensures { result ≡ is_legal form.now word }
{
    match form {
        Form::Int | Form::UnsignedInt => true,
        Form::Bool => word < 2,
        Form::Enum(enumerators) => enumerators.name(word).is_some(),
        _ => false,
    }
}

/// The word of a number of the form.
fn word_by(form: &Form, number: i128) -> Option<u32>
    ensures { result ≡ word_by form.now number }
{
    match form {
        Form::UnsignedInt => unsigned_word(number),
        _ => signed_word(number),
    }
}

/// The word of a case, if its number is known and a discriminant of the form may have it.
fn case_word(constants: &Constants, form: &Form, value: &Value) -> Option<u32>
    ensures { result ≡ case_word constants.now form.now (view_value value.now) }
{
    let number = constants.number(value)?;
    let word = word_by(form, number)?;
    if is_legal(form, word) {
        Some(word)
    } else {
        None
    }
}

/// Adds the arm of a word, if the word has none.
fn add_word(cases: &mut KeyedTable<u32, Arm>, word: Option<u32>, arm: Arm) -> Result<(), NoMemory>
    ensures { OnOk result (cases.new.entries ≡ with_word cases.old.entries word arm) }
{
    let Some(word) = word else {
        return Ok(());
    };
    if cases.get(&word).is_some() {
        return Ok(());
    }
    cases.insert(word, arm)?;
    Ok(())
}

/// Adds the arm of cases.
fn add_cases(
    constants: &Constants,
    form: &Form,
    cases: &mut KeyedTable<u32, Arm>,
    values: &[Value],
    arm: Arm,
) -> Result<(), NoMemory>
    ensures { OnOk result (cases.new.entries
        ≡ with_cases constants.now form.now cases.old.entries
        (map view_value values.now) arm) }
{
    for value in values {
        add_word(cases, case_word(constants, form, value), arm)?;
    }
    Ok(())
}

impl<'d> Maker<'d> {
    /// Nothing but `void`, which has place 0.
    fn new(alloc: Global) -> Result<Maker<'d>, NoMemory>
        ensures { IfOk result (λ maker. IsStart maker) }
    {
        let mut forms = Vec::new(alloc);
        forms.push(Form::Void)?;
        Ok(Maker {
            names: Vec::new(alloc),
            forms,
            links: Vec::new(alloc),
            found: Vec::new(alloc),
        })
    }

    pub(super) fn name(&mut self, alloc: Global, name: &[u8]) -> Result<NameIndex, NoMemory>
        ensures { IfOk result (λ index. AddsName self.old self.new name.now index) }
    {
        let Ok(index) = u32::try_from(self.names.len()) else {
            return Err(NoMemory);
        };
        self.names.push(Vec::from_slice(alloc, name)?)?;
        Ok(index)
    }

    pub(super) fn form(&mut self, form: Form) -> Result<FormIndex, NoMemory>
        ensures { IfOk result (λ place. AddsForm self.old self.new form place) }
    {
        let place = self.forms.len();
        self.forms.push(form)?;
        Ok(place)
    }

    fn link(&mut self, link: Link<'d>) -> Result<LinkIndex, NoMemory>
        ensures { IfOk result (λ place. AddsLink self.old self.new link.entry place) }
    {
        let place = self.links.len();
        self.links.push(link)?;
        Ok(place)
    }

    /// Takes in a type that the item declares.
    fn add_named_type(
        &mut self,
        alloc: Global,
        name: &[u8],
        form: FormIndex,
    ) -> Result<(), NoMemory>
        ensures { OnOk result (AddsFound self.old self.new name.now form) }
    {
        let name = self.name(alloc, name)?;
        self.found.push(NamedType { name, form })?;
        Ok(())
    }

    /// Takes in the name of an enumerator with its word, if that has none.
    fn put_enumerator(
        &mut self,
        alloc: Global,
        names: &mut KeyedTable<u32, NameIndex>,
        word: u32,
        name: &[u8],
    ) -> Result<(), NoMemory>
        ensures { OnOk result ((known : schema.Known) → PutsAll known self.old self.new [] (λ n i s.
            (words_named s names.new.entries
            ≡ with_word (words_named s names.old.entries) (Some word) name.now)
            × (AreSoundWords n names.old.entries → AreSoundWords n names.new.entries))) }
    {
        if names.get(&word).is_some() {
            return Ok(());
        }
        let name = self.name(alloc, name)?;
        names.insert(word, name)?;
        Ok(())
    }

    /// Takes in the name of an enumerator with its word, if it has one and that has no name.
    fn enumerator(
        &mut self,
        alloc: Global,
        names: &mut KeyedTable<u32, NameIndex>,
        word: Option<u32>,
        name: &[u8],
    ) -> Result<(), NoMemory>
        ensures { OnOk result ((known : schema.Known) → PutsAll known self.old self.new [] (λ n i s.
            (words_named s names.new.entries ≡ with_word (words_named s names.old.entries) word name.now)
            × (AreSoundWords n names.old.entries → AreSoundWords n names.new.entries))) }
    {
        match word {
            Some(word) => self.put_enumerator(alloc, names, word, name),
            None => Ok(()),
        }
    }

    /// The words of the numbers of enumerators, with their names.
    fn enumerators(
        &mut self,
        alloc: Global,
        hash_key: HashKey,
        constants: &Constants,
        enumerators: &[Enumerator],
    ) -> Result<KeyedTable<u32, NameIndex>, NoMemory>
        ensures { IfOk result (λ names. (known : schema.Known) → PutsAll known self.old self.new [] (λ n i s.
            (words_named s names.entries ≡ words_from constants.now (Some (pos 0)) []
            (map view_enumerator enumerators.now)) × AreSoundWords n names.entries)) }
    {
        let mut names = IndexMap::with_hasher(alloc, hash_key);
        let mut next = Some(0);
        for enumerator in enumerators {
            let number = constants.number_given(next, &enumerator.value);
            self.enumerator(alloc, &mut names, word_of(number), &enumerator.name)?;
            next = next_number(number);
        }
        Ok(names)
    }

    /// The form of an enum.
    fn enum_body(
        &mut self,
        alloc: Global,
        known: &Known<'d>,
        enumerators: &[Enumerator],
    ) -> Result<FormIndex, NoMemory>
        ensures { IfOk result (λ place. PutsPlace known.now self.old self.new [] place
            (λ s at. IsEnum s known.now.numbers (map view_enumerator enumerators.now) at)) }
    {
        let names = self.enumerators(alloc, known.hash_key, known.constants(), enumerators)?;
        self.form(enum_form(names))
    }

    /// Adds the arm of cases of a discriminant of the form at a place.
    fn cases(
        &self,
        constants: &Constants,
        discriminant: FormIndex,
        cases: &mut KeyedTable<u32, Arm>,
        values: &[Value],
        arm: Arm,
    ) -> Result<(), NoMemory>
        ensures { OnOk result (discriminant < length self.now.forms.items → cases.new.entries
            ≡ with_cases constants.now (get_or self.now.forms.items discriminant forms.Void)
            cases.old.entries (map view_value values.now) arm) }
    {
        match self.forms.get(discriminant) {
            Some(form) => add_cases(constants, form, cases, values, arm),
            None => Ok(()),
        }
    }

    /// The place of a type that is used by value; an inline one has the name of the type around it, and this.
    #[cycle(maker)]
    fn inner_type(
        &mut self,
        alloc: Global,
        known: &Known<'d>,
        around: &[u8],
        name: &[u8],
        held: &'d DataType,
    ) -> Result<FormIndex, NoMemory>
        ensures { IfOk result (λ place. let type = view_type held.now in
            PutsPlace known.now self.old self.new
            (typedefs_of_type (lifted_name around.now name.now) type) place
            (λ s at. IsType s known.now type uses.ByValue at)) }
    {
        match held {
            DataType::Basic(basic) => self.form(basic_form(*basic)),
            DataType::Named(name) => Ok(known.place(name)),
            DataType::Tagged { name, .. } => Ok(known.place(name)),
            DataType::Inline(body) => self.inline(alloc, known, around, name, body),
        }
    }

    /// A link to a type.
    #[cycle(maker)]
    fn linked(
        &mut self,
        alloc: Global,
        known: &Known<'d>,
        around: &[u8],
        name: &[u8],
        held: &'d DataType,
    ) -> Result<LinkIndex, NoMemory>
        ensures { IfOk result (λ link. let type = view_type held.now in
            PutsLink known.now self.old self.new
            (typedefs_of_type (lifted_name around.now name.now) type) link
            (λ s at. IsType s known.now type uses.Link at)) }
    {
        match held {
            DataType::Basic(basic) => {
                let place = self.form(basic_form(*basic))?;
                self.link(Link::To(place))
            }
            DataType::Named(name) => self.link(Link::Named(name)),
            DataType::Tagged { name, .. } => self.link(Link::Named(name)),
            DataType::Inline(body) => {
                let place = self.inline(alloc, known, around, name, body)?;
                self.link(Link::To(place))
            }
        }
    }

    /// An inline type, by its name.
    #[cycle(maker)]
    fn inline(
        &mut self,
        alloc: Global,
        known: &Known<'d>,
        around: &[u8],
        name: &[u8],
        body: &'d Body,
    ) -> Result<FormIndex, NoMemory>
        ensures { IfOk result (λ place. let lifted = lifted_name around.now name.now in
            PutsPlace known.now self.old self.new
            (typedefs_inside lifted (view_body body.now) ++ as_typedef lifted (view_body body.now) ∷ []) place
            (λ s at. IsBody s known.now (view_body body.now) at)) }
    {
        let lifted = lifted_name(alloc, around, name)?;
        self.named_body(alloc, known, &lifted, body)
    }

    /// A type of this name.
    #[cycle(maker)]
    fn named_body(
        &mut self,
        alloc: Global,
        known: &Known<'d>,
        name: &[u8],
        body: &'d Body,
    ) -> Result<FormIndex, NoMemory>
        ensures { IfOk result (λ place. PutsPlace known.now self.old self.new
            (typedefs_inside name.now (view_body body.now) ++ as_typedef name.now (view_body body.now)
            ∷ []) place
            (λ s at. IsBody s known.now (view_body body.now) at)) }
    {
        let place = self.body(alloc, known, name, body)?;
        self.add_named_type(alloc, name, place)?;
        Ok(place)
    }

    /// The form of a body, of the type of this name.
    #[cycle(maker)]
    fn body(
        &mut self,
        alloc: Global,
        known: &Known<'d>,
        around: &[u8],
        body: &'d Body,
    ) -> Result<FormIndex, NoMemory>
        ensures { IfOk result (λ place. PutsPlace known.now self.old self.new
            (typedefs_inside around.now (view_body body.now)) place
            (λ s at. IsBody s known.now (view_body body.now) at)) }
    {
        match body {
            Body::Enum(enumerators) => self.enum_body(alloc, known, enumerators),
            Body::Struct(declarations) => {
                let fields = self.fields(alloc, known, around, declarations)?;
                self.form(Form::Struct(fields))
            }
            Body::Union(body) => self.union(alloc, known, around, body),
        }
    }

    #[cycle(maker)]
    fn union(
        &mut self,
        alloc: Global,
        known: &Known<'d>,
        around: &[u8],
        body: &'d UnionBody,
    ) -> Result<FormIndex, NoMemory>
        ensures { IfOk result (λ place. PutsPlace known.now self.old self.new
            (typedefs_inside around.now (view_union body.now)) place
            (λ s at. IsBody s known.now (view_union body.now) at)) }
    {
        let discriminant = self.field(alloc, known, around, &body.discriminant)?;
        let cases = self.arms(alloc, known, around, discriminant.form, &body.arms)?;
        let default = self.default(alloc, known, around, &body.default)?;
        self.form(union_form(discriminant, cases, default))
    }

    #[cycle(maker)]
    fn field(
        &mut self,
        alloc: Global,
        known: &Known<'d>,
        around: &[u8],
        declaration: &'d Declaration,
    ) -> Result<Field, NoMemory>
        ensures { IfOk result (λ field. let d = view_declaration declaration.now in
            PutsAll known.now self.old self.new (typedefs_of around.now d) (λ n i s.
            (name_at s field.name ≡ name_of d) × IsDeclared s known.now d field.form
            × IsSoundField n i field)) }
    {
        let form = self.declaration(alloc, known, around, declaration)?;
        let name = self.name(alloc, declaration.name())?;
        Ok(Field { name, form })
    }

    #[cycle(maker)]
    fn fields(
        &mut self,
        alloc: Global,
        known: &Known<'d>,
        around: &[u8],
        declarations: &'d [Declaration],
    ) -> Result<Vec<Field>, NoMemory>
        ensures { IfOk result (λ fields. let ds = view_declarations declarations.now in
            PutsAll known.now self.old self.new (typedefs_of_fields around.now ds) (λ n i s.
            AreFields s known.now ds fields.items × AreSoundFields n i fields.items)) }
    {
        let mut fields = Vec::with_capacity(alloc, declarations.len())?;
        for declaration in declarations {
            fields.push(self.field(alloc, known, around, declaration)?)?;
        }
        Ok(fields)
    }

    #[cycle(maker)]
    fn arm(
        &mut self,
        alloc: Global,
        known: &Known<'d>,
        around: &[u8],
        declaration: &'d Declaration,
    ) -> Result<Arm, NoMemory>
        ensures { IfOk result (λ arm. let d = view_declaration declaration.now in
            PutsAll known.now self.old self.new (typedefs_of around.now d) (λ n i s.
            IsArmOf s d arm × IsDeclared s known.now d (place_in arm) × IsSoundArm n i arm)) }
    {
        if declaration.is_void() {
            return Ok(Arm::Void);
        }
        Ok(Arm::Of(self.field(alloc, known, around, declaration)?))
    }

    /// The arms of a discriminant of the form at a place.
    #[cycle(maker)]
    fn arms(
        &mut self,
        alloc: Global,
        known: &Known<'d>,
        around: &[u8],
        discriminant: FormIndex,
        arms: &'d [ArmTree],
    ) -> Result<KeyedTable<u32, Arm>, NoMemory>
        ensures { IfOk result (λ cases. discriminant < length self.old.forms.items
            → PutsAll known.now self.old self.new (typedefs_of_arms around.now (view_arms arms.now))
            (λ n i s. AreArms s known.now (form_at s discriminant) (view_arms arms.now) [] cases.entries
            × AreSoundCases n i (form_at s discriminant) cases.entries)) }
    {
        let mut cases = IndexMap::with_hasher(alloc, known.hash_key);
        for arm in arms {
            let held = self.arm(alloc, known, around, &arm.declaration)?;
            self.cases(
                known.constants(),
                discriminant,
                &mut cases,
                &arm.cases,
                held,
            )?;
        }
        Ok(cases)
    }

    #[cycle(maker)]
    fn default(
        &mut self,
        alloc: Global,
        known: &Known<'d>,
        around: &[u8],
        default: &'d Option<Declaration>,
    ) -> Result<Option<Arm>, NoMemory>
        ensures { IfOk result (λ arm. let other = view_default default.now in
            PutsAll known.now self.old self.new (typedefs_of_default around.now other) (λ n i s.
            IsDefault s known.now other arm × IsSoundDefault n i arm)) }
    {
        match default {
            Some(declaration) => Ok(Some(self.arm(alloc, known, around, declaration)?)),
            None => Ok(None),
        }
    }

    /// The place of what is declared.
    #[cycle(maker)]
    fn declaration(
        &mut self,
        alloc: Global,
        known: &Known<'d>,
        around: &[u8],
        declaration: &'d Declaration,
    ) -> Result<FormIndex, NoMemory>
        ensures { IfOk result (λ place. let d = view_declaration declaration.now in
            PutsPlace known.now self.old self.new (typedefs_of around.now d) place
            (λ s at. IsDeclared s known.now d at)) }
    {
        match declaration {
            Declaration::Void => Ok(0),
            Declaration::Of { data, name, shape } => {
                self.shaped(alloc, known, around, name, data, shape)
            }
            Declaration::Opaque { length, .. } => {
                self.form(opaque_form(known.constants(), length))
            }
            Declaration::String { most, .. } => {
                self.form(Form::String(known.constants().limit(most)))
            }
        }
    }

    #[cycle(maker)]
    fn shaped(
        &mut self,
        alloc: Global,
        known: &Known<'d>,
        around: &[u8],
        name: &[u8],
        held: &'d DataType,
        shape: &Shape,
    ) -> Result<FormIndex, NoMemory>
        ensures { IfOk result (λ place. let type = view_type held.now in
            PutsPlace known.now self.old self.new
            (typedefs_of_type (lifted_name around.now name.now) type) place
            (λ s at. IsDeclared s known.now (tree.Of type name.now (view_shape shape.now)) at)) }
    {
        match shape {
            Shape::Plain => self.inner_type(alloc, known, around, name, held),
            Shape::Optional => {
                let link = self.linked(alloc, known, around, name, held)?;
                self.form(Form::Optional(link))
            }
            Shape::Array(length) => match length {
                Length::Fixed(size) => {
                    let of = self.inner_type(alloc, known, around, name, held)?;
                    self.form(Form::FixedArray(of, known.constants().size(size)))
                }
                Length::Variable(most) => {
                    let link = self.linked(alloc, known, around, name, held)?;
                    self.form(Form::Array(link, known.constants().limit(most)))
                }
            },
        }
    }

    /// Finds the types that a definition declares.
    fn definition(
        &mut self,
        alloc: Global,
        known: &Known<'d>,
        definition: &'d Definition,
    ) -> Result<(), NoMemory>
        ensures { OnOk result (PutsAll known.now self.old self.new
            (typedefs (Some (view_definition definition.now))) (λ n i s. Unit {0})) }
    {
        match definition {
            Definition::Typedef(declaration) => self.typedef(alloc, known, declaration),
            Definition::NewType { name, body } => {
                self.named_body(alloc, known, name, body)?;
                Ok(())
            }
            Definition::Const { .. } => Ok(()),
            Definition::Program { .. } => Ok(()),
        }
    }

    fn typedef(
        &mut self,
        alloc: Global,
        known: &Known<'d>,
        declaration: &'d Declaration,
    ) -> Result<(), NoMemory>
        ensures { OnOk result (PutsAll known.now self.old self.new
            (typedefs (Some (tree.Typedef (view_declaration declaration.now)))) (λ n i s. Unit {0})) }
    {
        if declaration.is_void() {
            return Ok(());
        }
        let name = declaration.name();
        let place = self.declaration(alloc, known, name, declaration)?;
        self.add_named_type(alloc, name, place)
    }

    /// The name in a place.
    fn name_at(&self, name: NameIndex) -> &[u8]
        ensures { result.now ≡ get_or (names_made self.now) name [] }
    {
        match self.names.get(name as usize) {
            Some(name) => name,
            None => b"",
        }
    }

    /// Adds the types of an item to those before it: the first of a name has it.
    fn add_found(&self, alloc: Global, types: &mut TypeTable) -> Result<(), NoMemory>
        ensures { OnOk result (named_types types.new.entries
            ≡ with_found (names_made self.now) (named_types types.old.entries) self.now.found.items) }
    {
        for found in &self.found {
            add_type(alloc, types, self.name_at(found.name), *found)?;
        }
        Ok(())
    }

    /// Takes in the types of an item behind those before it.
    fn take_found(&mut self, alloc: Global, types: &mut TypeTable) -> Result<(), NoMemory>
        ensures { OnOk result
            (TakesFound self.old self.new (named_types types.old.entries) (named_types types.new.entries)) }
    {
        self.add_found(alloc, types)?;
        self.found.clear();
        Ok(())
    }

    /// Finds the types that an item declares, if it has a definition.
    fn find(
        &mut self,
        alloc: Global,
        known: &Known<'d>,
        definition: Option<&'d Definition>,
    ) -> Result<(), NoMemory>
        ensures { OnOk result (PutsAll known.now self.old self.new
            (typedefs (tree_at definition.entry)) (λ n i s. Unit {0})) }
    {
        match definition {
            Some(definition) => self.definition(alloc, known, definition),
            None => Ok(()),
        }
    }

    /// Finds the types of an item, behind those before it.
    fn item(
        &mut self,
        alloc: Global,
        known: &mut Known<'d>,
        definition: Option<&'d Definition>,
    ) -> Result<(), NoMemory>
        ensures { OnOk result (FindsItem self.old self.new known.old known.new (tree_at definition.entry)) }
    {
        self.find(alloc, known, definition)?;
        self.take_found(alloc, &mut known.types)
    }

    /// Finds the types of all items.
    fn items(
        &mut self,
        alloc: Global,
        known: &mut Known<'d>,
        definitions: &[Option<&'d Definition>],
    ) -> Result<(), NoMemory>
        ensures { OnOk result
            (FindsItems self.old self.new known.old known.new (map tree_at definitions.now)) }
    {
        for definition in definitions {
            self.item(alloc, known, *definition)?;
        }
        Ok(())
    }
}

impl<'d> Maker<'d> {
    /// The schema of all that was put, with these procedures, where the types of all names are known.
    fn end(
        self,
        alloc: Global,
        known: Known<'d>,
        procedures: ProcedureTable,
    ) -> Result<Schema, NoMemory>
        requires good { IsGood known.types self }
        requires kept { AreKeptWithin (length self.names.items) (length self.forms.items)
            procedures.entries }
        ensures completes { IfOk result (λ schema. Completes self.entry schema) }
        ensures types { IfOk result (λ schema. schema.types ≡ known.entry.types) }
        ensures procedures { IfOk result (λ schema. schema.procedures ≡ procedures.entries) }
    {
        let links = places_linked(alloc, &known.types, &self.links)?;
        Ok(Schema {
            names: self.names,
            forms: self.forms,
            links,
            types: known.types,
            procedures,
        })
    }
}

/// Takes in the type of a name, if the name has none.
fn add_type(
    alloc: Global,
    types: &mut TypeTable,
    name: &[u8],
    of: NamedType,
) -> Result<(), NoMemory>
    ensures { OnOk result (named_types types.new.entries
        ≡ with_first bytes_eq (named_types types.old.entries) name.now of) }
{
    if named(types, name).is_some() {
        return Ok(());
    }
    types.insert(Vec::from_slice(alloc, name)?, of)?;
    Ok(())
}

/// The place that a link leads to.
fn place_linked(types: &TypeTable, link: Link) -> FormIndex
    ensures { result ≡ place_linked (named_types types.now.entries) link.entry }
{
    match link {
        Link::To(place) => place,
        Link::Named(name) => place_named(types, name),
    }
}

/// The places that links lead to.
fn places_linked(
    alloc: Global,
    types: &TypeTable,
    links: &[Link],
) -> Result<Vec<FormIndex>, NoMemory>
    ensures { IfOk result (λ places. places.items
        ≡ map (place_linked (named_types types.now.entries)) links.now) }
{
    let mut places = Vec::with_capacity(alloc, links.len())?;
    for link in links {
        places.push(place_linked(types, *link))?;
    }
    Ok(places)
}

impl Schema {
    /// The types and procedures of the items' definitions; an item without one declares none. They are those
    /// of the text where it has no fault, and where it has, a name that is no type counts as `void`. It takes
    /// time in proportion to the definitions, where whoever chose their names and numbers did not know the
    /// key, by which its tables hash.
    ///
    /// # Errors
    ///
    /// [`NoMemory`] where a list, or a name in it, could not grow.
    pub fn of(
        alloc: Global,
        hash_key: HashKey,
        definitions: &[Option<&Definition>],
    ) -> Result<Schema, NoMemory>
        ensures { IfOk result (λ schema. IsSchemaOf (map tree_at definitions.now) schema) }
    {
        let mut known = Known::of(alloc, hash_key, definitions)?;
        let mut maker = Maker::new(alloc)?;
        maker.items(alloc, &mut known, definitions)?;
        let procedures = maker.procedures(alloc, &known, definitions)?;
        maker.end(alloc, known, procedures)
    }
}

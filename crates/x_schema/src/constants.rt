//! The numbers of the constants of a text.

ghost use Rattle.std.specs.Prelude.{◌≡◌, map, pos, Some, option_and_then, IfOk, OnOk};
ghost use Rattle.std.specs.Map.{lookup};
ghost use Rattle.std.specs.Str.{bytes_eq};
ghost use Rattle.x_trees.specs.View.{view_value, view_most, view_enumerator, view_type, view_body};
ghost use Rattle.x_trees.specs.View.{view_union};
ghost use Rattle.x_trees.specs.View.{view_declaration, view_declarations, view_arms, view_default};
ghost use Rattle.x_trees.specs.View.{view_definition};
ghost use Rattle.x_trees.specs.View.{tree_at};
ghost use Rattle.x_schema.specs.SchemaOf.{beforehand, number_in, number_given, numbers_of, size_in, limit_in};
ghost use Rattle.x_schema.specs.SchemaOf.{with_number, with_enumerators, with_type};
ghost use Rattle.x_schema.specs.SchemaOf.{with_body, with_declaration};
ghost use Rattle.x_schema.specs.SchemaOf.{with_declarations, with_arms, with_default, with_definition};
ghost use Rattle.x_schema.specs.SchemaOf.{signed_word, unsigned_word, with_first};

use indexmap::IndexMap;
use std::alloc::Global;
use std::marker::Model;
use x_hash::{HashKey, KeyedTable};
use x_numbers::{next_number, number_value};
use x_text::NoMemory;
use x_trees::{Arm, Body, DataType, Declaration, Definition, Enumerator, UnionBody, Value};

/// The word of four bytes that is the number, if it is one from 0 to 2^32-1.
pub fn unsigned_word(number: i128) -> Option<u32>
    ensures { result ≡ unsigned_word number }
{
    match u32::try_from(number) {
        Ok(word) => Some(word),
        Err(_) => None,
    }
}

/// The word of four bytes that stands for a number from -2^31 to 2^31-1.
pub fn signed_word(number: i128) -> Option<u32>
    ensures { result ≡ signed_word number }
{
    if number < -(1 << 31) || number >= 1 << 31 {
        return None;
    }
    if number < 0 {
        return unsigned_word(number + (1 << 32));
    }
    unsigned_word(number)
}

/// The constants of a text with their numbers: the first of a name has it. They are seen as that list.
#[derive(Drop)]
pub struct Constants<'d> {
    table: KeyedTable<&'d [u8], i128>,
}

impl<'d> Model for Constants<'d> {
    ghost use Rattle.std.specs.Prelude.{map};
    ghost use Rattle.x_schema.specs.SchemaOf.{Numbers};

    ghost Value = { Numbers };

    ghost view = { λ c. map (λ e. (e.0.now, e.1)) c.table.entries };
}

impl<'d> Constants<'d> {
    /// The constants of the items' definitions, in a table that hashes by the key.
    pub fn of(
        alloc: Global,
        hash_key: HashKey,
        definitions: &[Option<&'d Definition>],
    ) -> Result<Constants<'d>, NoMemory>
        ensures { IfOk result (λ constants. constants ≡ numbers_of (map tree_at definitions.now)) }
    {
        let mut constants = Constants::beforehand(alloc, hash_key)?;
        for definition in definitions {
            if let Some(definition) = definition {
                constants.definition(definition)?;
            }
        }
        Ok(constants)
    }

    /// Those that are declared beforehand.
    fn beforehand(alloc: Global, hash_key: HashKey) -> Result<Constants<'d>, NoMemory>
        ensures { IfOk result (λ constants. constants ≡ beforehand) }
    {
        let mut constants = Constants {
            table: IndexMap::with_hasher(alloc, hash_key),
        };
        constants.add(b"TRUE", Some(1))?;
        constants.add(b"FALSE", Some(0))?;
        Ok(constants)
    }

    /// The number of the name, if it is known.
    fn number_named(&self, name: &[u8]) -> Option<i128>
        ensures { result ≡ lookup (bytes_eq name.now) self.now }
    {
        self.table.get(name).copied()
    }

    /// The number of the value, if it is known.
    pub fn number(&self, value: &Value) -> Option<i128>
        ensures { result ≡ number_in self.now (view_value value.now) }
    {
        match value {
            Value::Number(text) => number_value(text),
            Value::Named(name) => self.number_named(name),
        }
    }

    /// The number of an enumerator of this value, where the next one behind the enumerator before is given.
    pub fn number_given(&self, next: Option<i128>, value: &Option<Value>) -> Option<i128>
        ensures { result ≡ number_given self.now next (view_most value.now) }
    {
        match value {
            Some(value) => self.number(value),
            None => next,
        }
    }

    /// A size; one that is not known is 0.
    pub fn size(&self, value: &Value) -> u32
        ensures { result ≡ size_in self.now (view_value value.now) }
    {
        match self.number(value) {
            Some(number) => unsigned_word(number).unwrap_or(0),
            None => 0,
        }
    }

    /// A greatest size; without one it is the greatest number.
    pub fn limit(&self, most: &Option<Value>) -> u32
        ensures { result ≡ limit_in self.now (view_most most.now) }
    {
        match most {
            Some(value) => self.size(value),
            None => u32::MAX,
        }
    }

    /// Takes in a name with its number, if the name has none.
    fn put(&mut self, name: &'d [u8], number: i128) -> Result<(), NoMemory>
        ensures { OnOk result (self.new ≡ with_first bytes_eq self.old name.now number) }
    {
        if self.number_named(name).is_some() {
            return Ok(());
        }
        self.table.insert(name, number)?;
        Ok(())
    }

    /// Takes in a name with its number, if that is known and the name has none.
    fn add(&mut self, name: &'d [u8], number: Option<i128>) -> Result<(), NoMemory>
        ensures { OnOk result (self.new ≡ with_number self.old name.now number) }
    {
        match number {
            Some(number) => self.put(name, number),
            None => Ok(()),
        }
    }

    fn enumerators(&mut self, enumerators: &'d [Enumerator]) -> Result<(), NoMemory>
        ensures { OnOk result (self.new
            ≡ with_enumerators self.old (Some (pos 0)) (map view_enumerator enumerators.now)) }
    {
        let mut next = Some(0);
        for enumerator in enumerators {
            let number = self.number_given(next, &enumerator.value);
            self.add(&enumerator.name, number)?;
            next = next_number(number);
        }
        Ok(())
    }

    #[cycle(constants)]
    fn body(&mut self, body: &'d Body) -> Result<(), NoMemory>
        ensures { OnOk result (self.new ≡ with_body self.old (view_body body.now)) }
    {
        match body {
            Body::Enum(enumerators) => self.enumerators(enumerators),
            Body::Struct(declarations) => self.declarations(declarations),
            Body::Union(body) => self.union(body),
        }
    }

    #[cycle(constants)]
    fn union(&mut self, body: &'d UnionBody) -> Result<(), NoMemory>
        ensures { OnOk result (self.new ≡ with_body self.old (view_union body.now)) }
    {
        self.declaration(&body.discriminant)?;
        self.arms(&body.arms)?;
        self.default(&body.default)
    }

    #[cycle(constants)]
    fn data_type(&mut self, tree: &'d DataType) -> Result<(), NoMemory>
        ensures { OnOk result (self.new ≡ with_type self.old (view_type tree.now)) }
    {
        match tree {
            DataType::Inline(body) => self.body(body),
            _ => Ok(()),
        }
    }

    #[cycle(constants)]
    fn declaration(&mut self, declaration: &'d Declaration) -> Result<(), NoMemory>
        ensures { OnOk result (self.new ≡ with_declaration self.old (view_declaration declaration.now)) }
    {
        match declaration {
            Declaration::Of { data, .. } => self.data_type(data),
            _ => Ok(()),
        }
    }

    #[cycle(constants)]
    fn declarations(&mut self, declarations: &'d [Declaration]) -> Result<(), NoMemory>
        ensures { OnOk result (self.new ≡ with_declarations self.old (view_declarations declarations.now)) }
    {
        for declaration in declarations {
            self.declaration(declaration)?;
        }
        Ok(())
    }

    #[cycle(constants)]
    fn arms(&mut self, arms: &'d [Arm]) -> Result<(), NoMemory>
        ensures { OnOk result (self.new ≡ with_arms self.old (view_arms arms.now)) }
    {
        for arm in arms {
            self.declaration(&arm.declaration)?;
        }
        Ok(())
    }

    #[cycle(constants)]
    fn default(&mut self, default: &'d Option<Declaration>) -> Result<(), NoMemory>
        ensures { OnOk result (self.new ≡ with_default self.old (view_default default.now)) }
    {
        match default {
            Some(declaration) => self.declaration(declaration),
            None => Ok(()),
        }
    }

    /// Takes in the constants that a definition declares.
    fn definition(&mut self, definition: &'d Definition) -> Result<(), NoMemory>
        ensures { OnOk result (self.new ≡ with_definition self.old (Some (view_definition definition.now))) }
    {
        match definition {
            Definition::Const { name, value } => {
                let number = self.number(value);
                self.add(name, number)
            }
            Definition::Typedef(declaration) => self.declaration(declaration),
            Definition::NewType { body, .. } => self.body(body),
            Definition::Program { .. } => Ok(()),
        }
    }
}

//! How the procedures of a text are found.
ghost use Rattle.std.specs.Prelude.{◌≡◌, ◌∷◌, [], Some, map, IfOk, OnOk};
ghost use Rattle.std.specs.List.{flat_map};
ghost use Rattle.x_trees.specs.View.{view_argument, view_definition, view_passed, view_procedure, view_type};
ghost use Rattle.x_trees.specs.View.{view_version};
ghost use Rattle.x_trees.specs.View.{tree_at};
ghost use Rattle.x_schema.specs.ProceduresOf.{AreArguments, IsArgument, IsArgumentField};
ghost use Rattle.x_schema.specs.ProceduresOf.{IsPassed, IsPassedType};
ghost use Rattle.x_schema.specs.ProceduresOf.{IsProcedure, word_spelled, numbers_by, numbers_from};
ghost use Rattle.x_schema.specs.ProceduresOf.{procedures_by, procedures_in, with_procedure};
ghost use Rattle.x_schema.specs.ProceduresOf.{argument_name, procedures_declared, procedures_of};
ghost use Rattle.x_schema.specs.ProcedureMaking.{PutsAs, PutsField, PutsFields, PutsProcedures, PutsWithin};
ghost use Rattle.x_schema.specs.Schema.{IsKeptWithin};
ghost use Rattle.x_schema.specs.SchemaMaking.{AddsName};

use crate::constants::unsigned_word;
use crate::form::{Field, Form, FormIndex, NameIndex};
use crate::maker::{Known, Maker, basic_form};
use crate::procedure::{CompactProcedure, ProcedureNumbers};
use indexmap::IndexMap;
use itoa::Buffer;
use std::alloc::Global;
use x_hash::KeyedTable;
use x_numbers::number_value;
use x_text::NoMemory;
use x_trees::{Argument, DataType, Definition, Procedure, Version};

/// Procedures by their numbers.
pub type ProcedureTable = KeyedTable<ProcedureNumbers, CompactProcedure>;

/// A number of 32 bits as it is spelled.
fn word_spelled(text: &[u8]) -> Option<u32>
    ensures { result ≡ word_spelled text.now }
{
    match number_value(text) {
        Some(number) => unsigned_word(number),
        None => None,
    }
}

/// The numbers of a procedure, where each is one of 32 bits.
fn numbers_from(
    program: Option<u32>,
    version: Option<u32>,
    procedure: Option<u32>,
) -> Option<ProcedureNumbers>
    ensures { result ≡ numbers_from program version procedure }
{
    match (program, version, procedure) {
        (Some(program), Some(version), Some(procedure)) => Some(ProcedureNumbers {
            program,
            version,
            procedure,
        }),
        _ => None,
    }
}

/// The numbers of a procedure, where each is one of 32 bits; those of its program and version as they are
/// spelled.
fn numbers_by(program: &[u8], version: &[u8], procedure: &Procedure) -> Option<ProcedureNumbers>
    ensures { result ≡ numbers_by
        (record { program = program.now; version = version.now; procedure = view_procedure procedure.now }) }
{
    numbers_from(
        word_spelled(program),
        word_spelled(version),
        word_spelled(&procedure.number),
    )
}

/// Takes in a procedure by its numbers, if no other has them.
fn put_procedure(
    table: &mut ProcedureTable,
    numbers: Option<ProcedureNumbers>,
    kept: CompactProcedure,
) -> Result<(), NoMemory>
    ensures { OnOk result (table.new.entries ≡ with_procedure table.old.entries numbers kept) }
{
    let Some(numbers) = numbers else {
        return Ok(());
    };
    if table.get(&numbers).is_some() {
        return Ok(());
    }
    table.insert(numbers, kept)?;
    Ok(())
}

/// A list of one field.
fn one_field(alloc: Global, field: Field) -> Result<Vec<Field>, NoMemory>
    ensures { IfOk result (λ fields. fields.items ≡ field ∷ []) }
{
    let mut fields = Vec::new(alloc);
    fields.push(field)?;
    Ok(fields)
}

impl<'d> Maker<'d> {
    /// The place of the type of an argument or of a result; an inline one may not be passed, and counts as
    /// `void`.
    fn passed_type(&mut self, known: &Known<'d>, passed: &DataType) -> Result<FormIndex, NoMemory>
        ensures { IfOk result (λ place. PutsAs known.now self.old self.new place
            (λ s at. IsPassedType s (view_type passed.now) at)) }
    {
        match passed {
            DataType::Basic(basic) => self.form(basic_form(*basic)),
            DataType::Named(name) => Ok(known.place(name)),
            DataType::Tagged { name, .. } => Ok(known.place(name)),
            DataType::Inline(_) => Ok(0),
        }
    }

    /// The place of an argument or a result.
    fn argument(&mut self, known: &Known<'d>, argument: &Argument) -> Result<FormIndex, NoMemory>
        ensures { IfOk result (λ place. PutsAs known.now self.old self.new place
            (λ s at. IsArgument s (view_argument argument.now) at)) }
    {
        match argument {
            Argument::String => self.form(Form::String(u32::MAX)),
            Argument::Of(passed) => self.passed_type(known, passed),
        }
    }

    /// The place of what is passed, if anything is.
    fn passed(
        &mut self,
        known: &Known<'d>,
        passed: &Option<Argument>,
    ) -> Result<FormIndex, NoMemory>
        ensures { IfOk result (λ place. PutsAs known.now self.old self.new place
            (λ s at. IsPassed s (view_passed passed.now) at)) }
    {
        match passed {
            Some(argument) => self.argument(known, argument),
            None => Ok(0),
        }
    }

    /// The field of an argument of this number, among several.
    fn argument_field(
        &mut self,
        alloc: Global,
        number: usize,
        form: FormIndex,
    ) -> Result<Field, NoMemory>
        ensures { IfOk result
            (λ field. AddsName self.old self.new (argument_name number) field.name × (field.form ≡ form)) }
    {
        let name = self.argument_name(alloc, number)?;
        Ok(Field { name, form })
    }

    /// Takes in the name of an argument of this number, among several.
    fn argument_name(&mut self, alloc: Global, number: usize) -> Result<NameIndex, NoMemory>
        ensures { IfOk result (λ index. AddsName self.old self.new (argument_name number) index) }
    {
        let mut name = Vec::from_slice(alloc, b"arg")?;
        let mut buffer = Buffer::new();
        name.extend_from_slice(buffer.format(number).as_bytes())?;
        self.name(alloc, &name)
    }

    /// The first of several arguments.
    fn first_field(
        &mut self,
        alloc: Global,
        known: &Known<'d>,
        first: &Option<Argument>,
    ) -> Result<Field, NoMemory>
        ensures { IfOk result (λ field. PutsField known.now self.old self.new field
            (λ s. IsArgumentField s 1 (view_passed first.now) field)) }
    {
        let form = self.passed(known, first)?;
        self.argument_field(alloc, 1, form)
    }

    /// An argument behind the first.
    fn other_field(
        &mut self,
        alloc: Global,
        known: &Known<'d>,
        number: usize,
        other: &Argument,
    ) -> Result<Field, NoMemory>
        ensures { IfOk result (λ field. PutsField known.now self.old self.new field
            (λ s. IsArgumentField s number (Some (view_argument other.now)) field)) }
    {
        let form = self.argument(known, other)?;
        self.argument_field(alloc, number, form)
    }

    /// The fields of several arguments.
    fn argument_fields(
        &mut self,
        alloc: Global,
        known: &Known<'d>,
        first: &Option<Argument>,
        others: &[Argument],
    ) -> Result<Vec<Field>, NoMemory>
        ensures { IfOk result (λ fields. PutsFields known.now self.old self.new
            (view_passed first.now) (map view_argument others.now) fields.items) }
    {
        let mut fields = one_field(alloc, self.first_field(alloc, known, first)?)?;
        for other in others {
            fields.push(self.other_field(alloc, known, fields.len() + 1, other)?)?;
        }
        Ok(fields)
    }

    /// The place of what a procedure is called with.
    fn arguments(
        &mut self,
        alloc: Global,
        known: &Known<'d>,
        procedure: &Procedure,
    ) -> Result<FormIndex, NoMemory>
        ensures { IfOk result (λ place. let p = view_procedure procedure.now in
            PutsAs known.now self.old self.new place (λ s at. AreArguments s p.first p.others at)) }
    {
        if procedure.others.is_empty() {
            return self.passed(known, &procedure.first);
        }
        let fields = self.argument_fields(alloc, known, &procedure.first, &procedure.others)?;
        self.form(Form::Struct(fields))
    }

    /// What is kept of a procedure.
    fn procedure(
        &mut self,
        alloc: Global,
        known: &Known<'d>,
        procedure: &Procedure,
    ) -> Result<CompactProcedure, NoMemory>
        ensures { IfOk result (λ kept. PutsWithin known.now self.old self.new
            (λ n i. IsKeptWithin n i kept) (λ s. IsProcedure s (view_procedure procedure.now) kept)) }
    {
        let arguments = self.arguments(alloc, known, procedure)?;
        let results = self.passed(known, &procedure.result)?;
        let name = self.name(alloc, &procedure.name)?;
        Ok(CompactProcedure {
            name,
            arguments,
            results,
        })
    }

    /// Takes a procedure of a version into the table.
    fn add_procedure(
        &mut self,
        alloc: Global,
        known: &Known<'d>,
        program: &[u8],
        version: &[u8],
        procedure: &Procedure,
        table: &mut ProcedureTable,
    ) -> Result<(), NoMemory>
        ensures { OnOk result (PutsProcedures known.now self.old self.new
            table.old.entries table.new.entries (record {
              program = program.now;
              version = version.now;
              procedure = view_procedure procedure.now;
            } ∷ [])) }
    {
        let kept = self.procedure(alloc, known, procedure)?;
        put_procedure(table, numbers_by(program, version, procedure), kept)
    }

    /// Takes the procedures of a version of a program into the table.
    fn add_version(
        &mut self,
        alloc: Global,
        known: &Known<'d>,
        program: &[u8],
        version: &[u8],
        procedures: &[Procedure],
        table: &mut ProcedureTable,
    ) -> Result<(), NoMemory>
        ensures { OnOk result (PutsProcedures known.now self.old self.new
            table.old.entries table.new.entries
            (procedures_by program.now version.now (map view_procedure procedures.now))) }
    {
        for procedure in procedures {
            self.add_procedure(alloc, known, program, version, procedure, table)?;
        }
        Ok(())
    }

    /// Takes the procedures of the versions of a program into the table.
    fn add_versions(
        &mut self,
        alloc: Global,
        known: &Known<'d>,
        program: &[u8],
        versions: &[Version],
        table: &mut ProcedureTable,
    ) -> Result<(), NoMemory>
        ensures { OnOk result (PutsProcedures known.now self.old self.new
            table.old.entries table.new.entries
            (flat_map (procedures_in program.now) (map view_version versions.now))) }
    {
        for version in versions {
            self.add_version(
                alloc,
                known,
                program,
                &version.number,
                &version.procedures,
                table,
            )?;
        }
        Ok(())
    }

    /// Takes the procedures of a definition into the table, if it has any.
    fn add_declared(
        &mut self,
        alloc: Global,
        known: &Known<'d>,
        definition: &Definition,
        table: &mut ProcedureTable,
    ) -> Result<(), NoMemory>
        ensures { OnOk result (PutsProcedures known.now self.old self.new
            table.old.entries table.new.entries
            (procedures_declared (Some (view_definition definition.now)))) }
    {
        match definition {
            Definition::Program {
                versions,
                number,
                ..
            } => self.add_versions(alloc, known, number, versions, table),
            Definition::Const { .. } => Ok(()),
            Definition::Typedef(_) => Ok(()),
            Definition::NewType { .. } => Ok(()),
        }
    }

    /// Takes the procedures of an item into the table, if it has any.
    fn add_procedures(
        &mut self,
        alloc: Global,
        known: &Known<'d>,
        definition: Option<&Definition>,
        table: &mut ProcedureTable,
    ) -> Result<(), NoMemory>
        ensures { OnOk result (PutsProcedures known.now self.old self.new
            table.old.entries table.new.entries (procedures_declared (tree_at definition.entry))) }
    {
        match definition {
            Some(definition) => self.add_declared(alloc, known, definition, table),
            None => Ok(()),
        }
    }

    /// The procedures of the items' definitions, where the types of all items are known.
    pub(super) fn procedures(
        &mut self,
        alloc: Global,
        known: &Known<'d>,
        definitions: &[Option<&'d Definition>],
    ) -> Result<ProcedureTable, NoMemory>
        ensures { IfOk result (λ table. PutsProcedures known.now self.old self.new
            [] table.entries (procedures_of (map tree_at definitions.now))) }
    {
        let mut table = IndexMap::with_hasher(alloc, known.hash_key);
        for definition in definitions {
            self.add_procedures(alloc, known, *definition, &mut table)?;
        }
        Ok(table)
    }
}

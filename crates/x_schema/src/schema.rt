//! The types and procedures of a text, as values are read by them.
ghost use Rattle.std.specs.Prelude.{◌≡◌, ◌<◌, List, length, Some, None, IfSome, MatchOption};
ghost use Rattle.x_schema.specs.Schema.{form_at, target_at, name_at, named_type, type_id, IsTypeId, id_named};
ghost use Rattle.x_schema.specs.Schema.{procedure_at, IsProcedureAt, IsKeptWithin, arguments_id, results_id};
ghost use Rattle.std.specs.Prelude.{option_and_then};
ghost use Rattle.x_schema.specs.Schema.{IsShownAs, kept_at};
ghost use Rattle.x_schema.specs.Sound.{IsSound};

use crate::form::{Form, FormIndex, LinkIndex, NameIndex};
use crate::procedure::{CompactProcedure, Procedure, ProcedureIndex, ProcedureNumbers};
use std::marker::Model;
use x_hash::KeyedTable;

/// What asked for a type: it decides how the root of a value is labelled.
#[derive(Clone, Copy, Debug, PartialEq, Eq)]
pub enum Root {
    /// The type of this name.
    Type(NameIndex),
    /// The arguments of a procedure.
    Arguments,
    /// The results of a procedure.
    Results,
}

/// A type of a schema: one that has a name ([`Schema::type_named`]), or a procedure's arguments or results.
#[derive(Clone, Copy, Debug, PartialEq, Eq)]
pub struct TypeId {
    root: Root,
    form: FormIndex,
}

impl TypeId {
    /// What asked for the type.
    pub fn root(self) -> Root
        ensures { result ≡ self.root }
    {
        self.root
    }

    /// Its form.
    pub fn form(self) -> FormIndex
        ensures { result ≡ self.form }
    {
        self.form
    }
}

/// A type that has a name.
#[derive(Clone, Copy, Debug, PartialEq, Eq)]
pub(crate) struct NamedType {
    /// The name.
    pub(crate) name: NameIndex,
    /// What the type is.
    pub(crate) form: FormIndex,
}

/// The types of a text without a fault. A type is a place in a list of forms, and a typedef leads to the form
/// that it stands for, so that reading a value follows no chain of names.
pub struct Schema {
    pub(crate) names: Vec<Vec<u8>>,
    pub(crate) forms: Vec<Form>,
    /// The forms that links lead to: a link may look ahead.
    pub(crate) links: Vec<FormIndex>,
    pub(crate) types: KeyedTable<Vec<u8>, NamedType>,
    pub(crate) procedures: KeyedTable<ProcedureNumbers, CompactProcedure>,
}

// By hand, so that who lets it go calls this, and need not prove anew how its parts are let go.
impl Drop for Schema {
    fn drop(self) {
        let Schema {
            names: _,
            forms: _,
            links: _,
            types: _,
            procedures: _,
        } = self;
    }
}

impl Model for Schema {
    ghost use Rattle.std.specs.Prelude.{map};
    ghost use Rattle.x_schema.specs.Schema.{Schema, named_types};

    ghost Value = { Schema };

    ghost view = { λ s. record {
      names = map (λ n. n.items) s.names.items;
      forms = s.forms.items;
      links = s.links.items;
      types = named_types s.types.entries;
      procedures = s.procedures.entries;
    } };

    ghost use Rattle.x_schema.specs.Sound.{IsSound};

    ghost invariant = { λ s. IsSound (record {
      names = map (λ n. n.items) s.names.items;
      forms = s.forms.items;
      links = s.links.items;
      types = named_types s.types.entries;
      procedures = s.procedures.entries;
    }) };
}

impl Schema {
    /// The type of this name, if the text has one: a type definition's own name, or that of an inline type in
    /// it.
    pub fn type_named(&self, name: &[u8]) -> Option<TypeId>
        ensures named { result ≡ id_named self.now name.now }
        ensures known { IfSome result (IsTypeId self.now) }
    {
        match self.named(name) {
            Some(named) => Some(TypeId {
                root: Root::Type(named.name),
                form: named.form,
            }),
            None => None,
        }
    }

    /// What the name of a type stands for.
    #[tactic(auto, using(crate::proofs::SchemaLemmas::lookup_read))]
    fn named(&self, name: &[u8]) -> Option<NamedType>
        ensures named { result ≡ named_type self.now name.now }
        ensures known { IfSome result (λ t. IsTypeId self.now (type_id t)) }
    {
        self.types.get(name).copied()
    }

    /// The procedure of these numbers, if the text has one; where two programs have one number, the first
    /// that has the version and the procedure (RFC 5531, section 8).
    pub fn procedure(&self, prog: u32, vers: u32, proc: u32) -> Option<Procedure<'_>>
        ensures found { MatchOption result
            (procedure_at self.now (record { program = prog; version = vers; procedure = proc }) ≡ None)
            (λ p. IsProcedureAt self.now
            (record { program = prog; version = vers; procedure = proc }) p.name.now p.arg p.res) }
        ensures known { IfSome result (λ p. IsTypeId self.now p.arg × IsTypeId self.now p.res) }
    {
        let numbers = ProcedureNumbers {
            program: prog,
            version: vers,
            procedure: proc,
        };
        match self.kept(numbers) {
            Some(kept) => Some(self.shown(kept)),
            None => None,
        }
    }

    /// Where the procedure of these numbers stands, if the text has one: what stands at the index
    /// ([`Schema::procedure_at`]) is what [`Schema::procedure`] finds.
    pub fn procedure_index(&self, numbers: ProcedureNumbers) -> Option<ProcedureIndex>
        ensures found { option_and_then (kept_at self.now) result ≡ procedure_at self.now numbers }
        ensures within { IfSome result (λ index. index < length self.now.procedures) }
    {
        self.procedures.get_index_of(&numbers)
    }

    /// The procedure that stands at an index, if one does.
    pub fn procedure_at(&self, index: ProcedureIndex) -> Option<Procedure<'_>>
        ensures found { MatchOption result (kept_at self.now index ≡ None)
            (λ p. IsShownAs self.now (kept_at self.now index) p.name.now p.arg p.res) }
        ensures known { IfSome result (λ p. IsTypeId self.now p.arg × IsTypeId self.now p.res) }
    {
        let kept = self.kept_at(index)?;
        Some(self.shown(kept))
    }

    /// What is kept of the procedure at an index.
    fn kept_at(&self, index: ProcedureIndex) -> Option<CompactProcedure>
        ensures kept { result ≡ kept_at self.now index }
        ensures within { IfSome result
            (λ kept. IsKeptWithin (length self.now.names) (length self.now.forms) kept) }
    {
        match self.procedures.get_index(index) {
            Some((_, kept)) => Some(*kept),
            None => None,
        }
    }

    /// What is kept of the procedure of these numbers.
    fn kept(&self, numbers: ProcedureNumbers) -> Option<CompactProcedure>
        ensures kept { result ≡ procedure_at self.now numbers }
        ensures within { IfSome result
            (λ kept. IsKeptWithin (length self.now.names) (length self.now.forms) kept) }
    {
        self.procedures.get(&numbers).copied()
    }

    /// A procedure of which this is kept.
    fn shown(&self, kept: CompactProcedure) -> Procedure<'_>
        requires { IsKeptWithin (length self.now.names) (length self.now.forms) kept }
        ensures name { result.name.now ≡ name_at self.now kept.name }
        ensures arg { result.arg ≡ arguments_id kept }
        ensures res { result.res ≡ results_id kept }
    {
        Procedure {
            name: self.name(kept.name),
            arg: TypeId {
                root: Root::Arguments,
                form: kept.arguments,
            },
            res: TypeId {
                root: Root::Results,
                form: kept.results,
            },
        }
    }

    /// What the type is: its kind, with its sizes, fields, arms or enumerators. What leads on from it, and
    /// from the form at any place, stands within the schema: so [`Schema::form_at`], [`Schema::target`] and
    /// [`Schema::name`] can be asked for it.
    pub fn form(&self, id: TypeId) -> &Form
        requires { IsTypeId self.now id }
        ensures form { result.now ≡ form_at self.now id.form }
        ensures within { id.form < length self.now.forms }
        ensures sound { IsSound self.now }
    {
        &self.forms[id.form]
    }

    /// The form at a place, as a field or an element has it.
    pub fn form_at(&self, form: FormIndex) -> &Form
        requires { form < length self.now.forms }
        ensures form { result.now ≡ form_at self.now form }
        ensures sound { IsSound self.now }
    {
        &self.forms[form]
    }

    /// The form that a link leads to.
    pub fn target(&self, link: LinkIndex) -> FormIndex
        requires { link < length self.now.links }
        ensures target { result ≡ target_at self.now link }
        ensures within { result < length self.now.forms }
    {
        self.links[link]
    }

    /// A name of a field, an enumerator or a type.
    pub fn name(&self, name: NameIndex) -> &[u8]
        requires { name < length self.now.names }
        ensures { result.now ≡ name_at self.now name }
    {
        &self.names[name as usize]
    }
}

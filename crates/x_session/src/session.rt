//! A text that stays open, with all that compiling it gives.

ghost use Rattle.std.specs.Prelude.{◌≡◌, ◌↔◌, ◌<◌, ◌++◌, length, option_map, slice_get, IfOk};
ghost use Rattle.std.specs.Prelude.{OnOk, OnErr, IfErr, IsErrOf, map, take};
ghost use Rattle.x_text.specs.Edits.{change_of, edited_by, Judges};
ghost use Rattle.x_text.specs.Limits.{most_text};
ghost use Rattle.x_lex.specs.Places.{lexeme};
ghost use Rattle.x_trees.specs.View.{tree_at};
ghost use Rattle.x_session.specs.Session.{Document, Compiles, edited_by_all, TakesAll, StopsAt};
ghost use Rattle.x_compile.specs.Compile.{tokens_of, definitions_of, definition_at, faults_of, places_of};
ghost use Rattle.x_compile.specs.Definitions.{numbered};
ghost use Rattle.x_compile.specs.Known.{known_definitions, nothing_known};
ghost use Rattle.x_rules.specs.Results.{meaning_at, result_at};
ghost use Rattle.x_rules.specs.RustViews.{view_meaning};
ghost use Rattle.x_follow.specs.Lacking.{is_lacking_name};
ghost use Rattle.x_session.specs.Typed.{GivesSchema, IsKnownBy};
ghost use Rattle.x_schema.specs.Schemas.{IsSchemaOf};
ghost use Rattle.x_compile.specs.KeptView.{entry_definitions};
ghost use Rattle.x_session.specs.Work.{IsWork, IsWorkOfAll, HasDone};

mod schema_fault;
mod texts;
mod work;

use crate::EditFault;
pub use schema_fault::SchemaFault;
use std::alloc::Global;
use std::marker::Model;
pub use work::Work;
use x_compile::{Compilation, Fault, FaultPlaces, Faults, ItemTable, KnownDefinitions, compile};
use x_follow::{carry_out, lacks, plan_edit};
use x_hash::HashKey;
use x_item::Definition;
use x_lex::{Token, TokenIter, Tokens};
use x_names::Declarer;
use x_rules::Meaning;
use x_sema::Schema;
use x_text::{Edit, Lines, Meter, NoMemory, Source, TextBuffers, TextFault};

/// A text that stays open: its tokens, definitions and faults, and what is generated of it.
pub struct Session {
    alloc: Global,
    base: Vec<u8>,
    known: KnownDefinitions,
    texts: TextBuffers,
    tokens: Tokens,
    items: ItemTable,
}

// By hand, so that who lets it go calls this, and need not prove anew how its parts are let go.
impl Drop for Session {
    fn drop(self) {
        let Session {
            alloc: _,
            base: _,
            known: _,
            texts: _,
            tokens: _,
            items: _,
        } = self;
    }
}

impl Model for Session {
    ghost use Rattle.std.specs.Coded.{codes};
    ghost use Rattle.x_trees.specs.contracts.trees.definition.Definition as definition;
    ghost use Rattle.x_session.specs.Session.{Document};
    ghost use Rattle.x_compile.specs.KeptText.{IsKept};

    ghost Value = { Document };

    ghost coded = { Prim.hlevel (codes, definition.the_row.coded) };

    ghost view = { λ s. record {
      base = s.base.items;
      known = s.known;
      text = s.texts.text;
      token_seat = s.tokens.seat;
      item_seat = s.items.entries.seat;
      tokens_moved = s.tokens.moved;
      items_moved = s.items.entries.moved;
    } };

    ghost invariant = { λ s.
        IsKept s.known s.texts.text s.tokens.list s.items.entries.list s.items.faults s.items.uses };
}

impl Session {
    /// Opens a text: [`TextFault::TooLarge`] or [`TextFault::NoMemory`]. `base` is the name that the
    /// generated texts use. Tables of its names hash by a key that is made of the text. Whoever chooses names
    /// for later edits may know it: [`Session::keyed`] takes another.
    pub fn open(alloc: Global, base: &[u8], bytes: &[u8]) -> Result<Session, TextFault>
        ensures base { IfOk result (λ s. s.base ≡ base.now) }
        ensures known { IfOk result (λ s. s.known ≡ nothing_known) }
        ensures text { IfOk result (λ s. s.text ≡ bytes.now) }
        ensures too_large { IsErrOf result TextFault.TooLarge ↔ (most_text < length bytes.now) }
        ensures in_range { IsErrOf result TextFault.BadRange → ⊥ }
        ensures token_seat { IfOk result
            (λ s. Compiles s.known s.text (λ items. s.token_seat ≡ length (tokens_of items))) }
        ensures item_seat { IfOk result (λ s. Compiles s.known s.text (λ items. s.item_seat ≡ length items)) }
    {
        Session::keyed(alloc, HashKey::of_bytes(bytes), base, bytes)
    }

    /// As [`Session::open`], over tables that hash by a key which whoever chose the names of the text, or
    /// chooses those of later edits, does not know.
    ///
    /// # Errors
    ///
    /// As [`Session::open`].
    pub fn keyed(
        alloc: Global,
        hash_key: HashKey,
        base: &[u8],
        bytes: &[u8],
    ) -> Result<Session, TextFault>
        ensures base { IfOk result (λ s. s.base ≡ base.now) }
        ensures known { IfOk result (λ s. s.known ≡ nothing_known) }
        ensures text { IfOk result (λ s. s.text ≡ bytes.now) }
        ensures too_large { IsErrOf result TextFault.TooLarge ↔ (most_text < length bytes.now) }
        ensures in_range { IsErrOf result TextFault.BadRange → ⊥ }
        ensures token_seat { IfOk result
            (λ s. Compiles s.known s.text (λ items. s.token_seat ≡ length (tokens_of items))) }
        ensures item_seat { IfOk result (λ s. Compiles s.known s.text (λ items. s.item_seat ≡ length items)) }
    {
        Session::open_over(alloc, hash_key, KnownDefinitions::none(), base, bytes)
    }

    /// As [`Session::keyed`], of a text before which these definitions are known: they are declared before
    /// all that the text declares, and nothing is generated of them.
    ///
    /// # Errors
    ///
    /// As [`Session::open`].
    pub fn open_over(
        alloc: Global,
        hash_key: HashKey,
        known: KnownDefinitions,
        base: &[u8],
        bytes: &[u8],
    ) -> Result<Session, TextFault>
        ensures base { IfOk result (λ s. s.base ≡ base.now) }
        ensures known { IfOk result (λ s. s.known ≡ known) }
        ensures text { IfOk result (λ s. s.text ≡ bytes.now) }
        ensures too_large { IsErrOf result TextFault.TooLarge ↔ (most_text < length bytes.now) }
        ensures in_range { IsErrOf result TextFault.BadRange → ⊥ }
        ensures token_seat { IfOk result
            (λ s. Compiles s.known s.text (λ items. s.token_seat ≡ length (tokens_of items))) }
        ensures item_seat { IfOk result (λ s. Compiles s.known s.text (λ items. s.item_seat ≡ length items)) }
    {
        let source = Source::from_bytes(alloc, bytes)?;
        match Session::compiled(alloc, hash_key, known, base, source) {
            Ok(session) => Ok(session),
            Err(NoMemory) => Err(TextFault::NoMemory),
        }
    }

    /// The session of a text, before which this is known.
    fn compiled(
        alloc: Global,
        hash_key: HashKey,
        known: KnownDefinitions,
        base: &[u8],
        source: Source,
    ) -> Result<Session, NoMemory>
        ensures base { IfOk result (λ s. s.base ≡ base.now) }
        ensures known { IfOk result (λ s. s.known ≡ known) }
        ensures text { IfOk result (λ s. s.text ≡ source) }
        ensures token_seat { IfOk result
            (λ s. Compiles s.known s.text (λ items. s.token_seat ≡ length (tokens_of items))) }
        ensures item_seat { IfOk result (λ s. Compiles s.known s.text (λ items. s.item_seat ≡ length items)) }
    {
        let mut meter = Meter::new();
        let base = Vec::from_slice(alloc, base)?;
        let Compilation { tokens, items } = compile(alloc, hash_key, &known, &source, &mut meter)?;
        Ok(Session {
            alloc,
            base,
            known,
            texts: TextBuffers::of(alloc, source),
            tokens,
            items,
        })
    }

    /// Carries an edit out, with the faults of [`Source::replace`], and answers what work it took. After a
    /// fault all is as before.
    pub fn apply(&mut self, edit: &Edit) -> Result<Work, EditFault>
        ensures text { OnOk result (self.new.text ≡ edited_by (change_of self.old.text edit.now)) }
        ensures base { self.new.base ≡ self.old.base }
        ensures known { self.new.known ≡ self.old.known }
        ensures fault { Judges (change_of self.old.text edit.now) result }
        ensures same { OnErr result (self.new ≡ self.old) }
        ensures work { IfOk result
            (λ work. IsWork (change_of self.old.text edit.now) self.old self.new work) }
    {
        self.texts.prepare(edit)?;
        let mut meter = Meter::new();
        let planned = plan_edit(
            self.alloc,
            &self.known,
            self.texts.text(),
            edit,
            self.texts.ready(),
            &mut self.tokens,
            &mut self.items,
            &mut meter,
        );
        let plan = match planned {
            Ok(plan) => plan,
            Err(NoMemory) => return Err(EditFault::NoMemory),
        };
        self.texts.turn();
        carry_out(plan, &mut self.tokens, &mut self.items, &mut meter);
        Ok(Work::of(&meter))
    }

    /// Carries the edits out in order, and answers what work they took. At the first that is refused it stops
    /// and answers its index, from 0, and the fault: the edits before it are done.
    pub fn apply_all(&mut self, edits: &[Edit]) -> Result<Work, (usize, EditFault)>
        ensures text { OnOk result (self.new.text ≡ edited_by_all self.old.text edits.now) }
        ensures takes { OnOk result (TakesAll self.old.text edits.now) }
        ensures stops { IfErr result
            (λ fault. StopsAt self.old.text edits.now self.new.text fault.0 fault.1) }
        ensures done { IfErr result (λ fault. HasDone self.old (take fault.0 edits.now) self.new) }
        ensures works { IfOk result (λ total. IsWorkOfAll self.old edits.now self.new total) }
        ensures base { self.new.base ≡ self.old.base }
        ensures known { self.new.known ≡ self.old.known }
    {
        let mut total = Work::default();
        for (index, edit) in edits.iter().enumerate() {
            match self.apply(edit) {
                Ok(work) => total = total.with(&work),
                Err(fault) => return Err((index, fault)),
            }
        }
        Ok(total)
    }

    /// The definitions of the text, to be known before other texts. What is known before this one is not.
    ///
    /// # Errors
    ///
    /// [`NoMemory`] where the table of their names could not be kept.
    pub fn into_known(self) -> Result<KnownDefinitions, NoMemory>
        ensures { IfOk result (λ known. Compiles self.known self.text (λ items. IsKnownBy items known)) }
    {
        let Session {
            alloc,
            base: _,
            known: _,
            texts: _,
            tokens: _,
            items,
        } = self;
        KnownDefinitions::of(alloc, items)
    }

    /// What tables of its names hash by.
    pub fn hash_key(&self) -> HashKey {
        self.items.hash_key
    }

    /// Whether the text uses a name that it does not declare. The first call or edit makes the table of its
    /// names, which takes time in proportion to the text.
    ///
    /// # Errors
    ///
    /// [`NoMemory`] where that table could not be made.
    pub fn lacks(&mut self, name: &[u8]) -> Result<bool, NoMemory>
        ensures same { self.new ≡ self.old }
        ensures lacks { IfOk result (λ lacks. Compiles self.old.known self.old.text
            (λ items. lacks ≡ is_lacking_name (definitions_of items) name.now)) }
    {
        lacks(self.alloc, &mut self.items, name)
    }

    /// The bytes of the text.
    pub fn bytes(&self) -> &[u8]
        ensures { result.now ≡ self.now.text }
    {
        self.texts.text().bytes()
    }

    /// The lines of the text, and the columns of its places.
    pub fn lines(&self) -> Lines<'_>
        ensures { result ≡ self.now.text }
    {
        Lines::of(self.texts.text())
    }

    /// How many tokens the text has.
    pub fn token_count(&self) -> usize
        ensures { Compiles self.now.known self.now.text (λ items. result ≡ length (tokens_of items)) }
    {
        self.tokens.len()
    }

    /// The token at an index.
    pub fn token(&self, index: usize) -> Option<Token<'_>>
        ensures { Compiles self.now.known self.now.text
            (λ items. option_map lexeme result ≡ slice_get (tokens_of items) index) }
    {
        self.tokens.token(index, self.texts.text())
    }

    /// The tokens of the text, one after another.
    pub fn tokens(&self) -> TokenIter<'_>
        ensures { Compiles self.now.known self.now.text (λ items. result ≡ tokens_of items) }
    {
        self.tokens.iter(self.texts.text())
    }

    /// How many items the text has: one more than end with their own `;`.
    pub fn item_count(&self) -> usize
        ensures { Compiles self.now.known self.now.text (λ items. result ≡ length items) }
    {
        self.items.len()
    }

    /// The definition of the item at an index, if it has one.
    pub fn definition(&self, index: usize) -> Option<&Definition>
        ensures { Compiles self.now.known self.now.text
            (λ items. tree_at result ≡ definition_at items index) }
    {
        self.items.definition(index)
    }

    /// What a name means whose first declarer this is: [`Meaning::Bad`] where that item has a fault.
    pub fn meaning(&self, first: &Declarer) -> Meaning<'_>
        ensures { Compiles self.now.known self.now.text (λ items. view_meaning result
            ≡ meaning_at (result_at (map (λ i. i.result) items)) first.now) }
    {
        self.items.meaning(first)
    }

    /// How many items have a definition.
    pub fn definition_count(&self) -> usize
        ensures { Compiles self.now.known self.now.text
            (λ items. result ≡ length (numbered 0 (definitions_of items))) }
    {
        self.items.definition_count()
    }

    /// How many faults the text has.
    pub fn fault_count(&self) -> usize
        ensures { Compiles self.now.known self.now.text
            (λ items. result ≡ length (faults_of self.now.text items)) }
    {
        self.items.faults
    }

    /// The fault at an index: faults stand in order of item, then of place, then of code.
    ///
    /// Goes over the items and the text up to it; to go over all faults, use [`Session::faults`].
    pub fn fault(&self, index: usize) -> Option<Fault>
        ensures { Compiles self.now.known self.now.text
            (λ items. result ≡ slice_get (faults_of self.now.text items) index) }
    {
        self.faults().nth(index)
    }

    /// The faults of the text, one after another, in the order of [`Session::fault`].
    pub fn faults(&self) -> Faults<'_>
        ensures { Compiles self.now.known self.now.text (λ items. result ≡ faults_of self.now.text items) }
    {
        Faults::of(self.texts.text(), &self.tokens, &self.items)
    }

    /// The faults of the text and where their tokens start, in the order of [`Session::fault`]. Unlike
    /// [`Session::faults`] it looks at no line, and at no token of an item without a fault.
    pub fn fault_places(&self) -> FaultPlaces<'_>
        ensures { Compiles self.now.known self.now.text (λ items. result ≡ places_of items) }
    {
        FaultPlaces::of(self.texts.text(), &self.tokens, &self.items)
    }

    /// The types of what is known before the text, and of the text, by which values are read:
    /// [`SchemaFault::Faulty`] where the text has a fault.
    pub fn schema(&self) -> Result<Schema, SchemaFault>
        ensures { Compiles self.now.known self.now.text
            (λ items. GivesSchema self.now.known self.now.text items result) }
    {
        if self.items.faults > 0 {
            return Err(SchemaFault::Faulty);
        }
        match schema_of(self.alloc, &self.known, &self.items) {
            Ok(schema) => Ok(schema),
            Err(NoMemory) => Err(SchemaFault::NoMemory),
        }
    }
}

/// The types of what is known before the items, and of what they define.
fn schema_of(alloc: Global, known: &KnownDefinitions, items: &ItemTable) -> Result<Schema, NoMemory>
    ensures { IfOk result (λ schema.
        IsSchemaOf (known_definitions known.now ++ entry_definitions items.now.entries.list) schema) }
{
    let mut definitions = known.definitions(alloc)?;
    items.add_definitions(&mut definitions)?;
    Schema::of(alloc, items.hash_key, &definitions)
}

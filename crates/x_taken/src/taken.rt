//! What C has a name for.
ghost use Rattle.std.specs.Prelude.{◌≡◌, ℕ, List, Some, IfOk, OnOk, if◌then◌else◌};
ghost use Rattle.std.specs.Str.{bytes_eq};
ghost use Rattle.x_taken.specs.TakenNames.{entry_in, is_among, kind_in, taken_as, taken_in};
ghost use Rattle.x_taken.specs.TakenNames.{view_lists, words};

use crate::names::{
    CALL_MACROS, KEYWORDS, KEYWORDS_OF_CPP, MACROS, NAME_COUNT, NAMES, NUMBERS, PARAMETERS,
    TAGGED_NAMES, TAGS, VARIABLES,
};
use indexmap::IndexMap;
use std::alloc::Global;
use x_hash::{HashKey, KeyedTable};
use x_text::NoMemory;

/// What C has a name for. A file of C is one for `gcc -std=gnu17` that includes `rpc/rpc.h` of libtirpc and
/// `memory.h`, as the generated texts do.
#[derive(Clone, Copy, Debug, PartialEq, Eq)]
pub enum TakenAs {
    /// A keyword of C.
    Keyword,
    /// A keyword, or a token that is spelled as a word, of C++ alone.
    KeywordOfCpp,
    /// A macro without parameters, of the compiler or of the headers.
    Macro,
    /// A macro without parameters, with `=` and the number that it stands for: `SIGINT=2`. By its name alone
    /// it is a [`TakenAs::Macro`].
    Number,
    /// A macro with parameters. None of these is a function besides.
    CallMacro,
    /// A type, a function, a variable or an enumerator of the headers, and no tag.
    Name,
    /// A tag of the headers, or of what a user of the generated texts declares, and nothing else.
    Tag,
    /// A name of the headers that is a tag too.
    TaggedName,
    /// A parameter of generated functions.
    Parameter,
    /// A variable of generated functions, or one that stands beside them.
    Variable,
}

/// The names of each kind, with a blank between two.
const LISTS: [(TakenAs, &str); 10] = [
    (TakenAs::Keyword, KEYWORDS),
    (TakenAs::KeywordOfCpp, KEYWORDS_OF_CPP),
    (TakenAs::Macro, MACROS),
    (TakenAs::Number, NUMBERS),
    (TakenAs::CallMacro, CALL_MACROS),
    (TakenAs::Name, NAMES),
    (TakenAs::Tag, TAGS),
    (TakenAs::TaggedName, TAGGED_NAMES),
    (TakenAs::Parameter, PARAMETERS),
    (TakenAs::Variable, VARIABLES),
];

/// The names that C has already; one of a macro that stands for a number also with that, as `SIGINT=2`. Names
/// are left out that begin with two underscores, or with one and a capital letter: they are reserved (C11,
/// section 7.1.3), and nobody gives such a name.
#[derive(Drop)]
pub struct Taken {
    table: KeyedTable<&'static [u8], TakenAs>,
}

impl Taken {
    /// The names, in a table that hashes by a key.
    ///
    /// # Errors
    ///
    /// [`NoMemory`] where there is no room for the table.
    pub fn of(alloc: Global, key: HashKey) -> Result<Taken, NoMemory>
        ensures { IfOk result (λ taken. (name : List ℕ) → taken_in taken name ≡ taken_as name) }
    {
        Ok(Taken {
            table: table_of(alloc, key, &LISTS)?,
        })
    }

    /// What C has the name for, if it has it; or a macro with its number (`SIGINT=2`).
    pub fn get(&self, name: &[u8]) -> Option<TakenAs>
        ensures { result ≡ taken_in self.now name.now }
    {
        self.table.get(name).copied()
    }
}

/// The table of the names in some lists. It is made from the last list to the first, so that it is left with
/// the kind of the first list that has a name.
fn table_of(
    alloc: Global,
    key: HashKey,
    lists: &[(TakenAs, &'static str)],
) -> Result<KeyedTable<&'static [u8], TakenAs>, NoMemory>
    ensures { IfOk result (λ table. (name : List ℕ)
        → entry_in table.entries name ≡ kind_in (view_lists lists.now) name) }
{
    let mut table = IndexMap::with_capacity_and_hasher(alloc, NAME_COUNT, key)?;
    for index in (0..lists.len()).rev() {
        let (kind, names) = lists[index];
        add_names(&mut table, names, kind)?;
    }
    Ok(table)
}

/// Takes in the names of a list, each in place of another kind that it has.
fn add_names(
    table: &mut KeyedTable<&'static [u8], TakenAs>,
    names: &'static str,
    kind: TakenAs,
) -> Result<(), NoMemory>
    ensures { OnOk result ((name : List ℕ) → entry_in table.new.entries name
        ≡ (if is_among name (words names.now) then Some kind else entry_in table.old.entries name)) }
{
    for name in names.split(' ') {
        add_name(table, name.as_bytes(), kind)?;
    }
    Ok(())
}

/// Takes in a name, in place of another kind that it has.
fn add_name(
    table: &mut KeyedTable<&'static [u8], TakenAs>,
    name: &'static [u8],
    kind: TakenAs,
) -> Result<(), NoMemory>
    ensures { OnOk result ((other : List ℕ) → entry_in table.new.entries other
        ≡ (if bytes_eq name.now other then Some kind else entry_in table.old.entries other)) }
{
    table.insert(name, kind)?;
    Ok(())
}

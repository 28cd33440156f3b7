//! C's own types that have an XDR routine.

ghost use Rattle.std.specs.Prelude.{◌≡◌, ◌++◌, map, option_map, IfOk, OnOk};
ghost use Rattle.std.specs.Map.{lookup};
ghost use Rattle.std.specs.Str.{bytes_eq};
ghost use Rattle.x_compile.specs.Compile.{definitions_of};
ghost use Rattle.x_compile.specs.Known.{known_names};
ghost use Rattle.x_session.specs.Session.{Compiles};
ghost use Rattle.x_prelude.specs.CTypes.{c_type, c_types, view_types};
ghost use Rattle.x_prelude.specs.Prelude.{lacks_name, type_text, types_in};

use crate::definition::add;
use x_compile::KnownDefinitions;
use x_session::Session;
use x_text::NoMemory;

/// C's own types that have an XDR routine of their name, each declared as what its routine reads and writes.
/// The routines are those of libtirpc's rpc/xdr.h, and the types those of sys/types.h and of its
/// rpc/types.h. A `u_long` takes four bytes, as does each shorter type.
const C_TYPES: [(&str, &str); 21] = [
    ("char", "int char"),
    ("u_char", "unsigned int u_char"),
    ("short", "int short"),
    ("u_short", "unsigned int u_short"),
    ("u_int", "unsigned int u_int"),
    ("u_long", "unsigned long u_long"),
    ("int8_t", "int int8_t"),
    ("uint8_t", "unsigned int uint8_t"),
    ("u_int8_t", "unsigned int u_int8_t"),
    ("int16_t", "int int16_t"),
    ("uint16_t", "unsigned int uint16_t"),
    ("u_int16_t", "unsigned int u_int16_t"),
    ("int32_t", "int int32_t"),
    ("uint32_t", "unsigned int uint32_t"),
    ("u_int32_t", "unsigned int u_int32_t"),
    ("int64_t", "hyper int64_t"),
    ("uint64_t", "unsigned hyper uint64_t"),
    ("u_int64_t", "unsigned hyper u_int64_t"),
    ("quad_t", "hyper quad_t"),
    ("u_quad_t", "unsigned hyper u_quad_t"),
    ("netobj", "opaque netobj<1024>"),
];

/// Adds the types of C that a text lacks, behind what is known, in the order of the table.
pub(crate) fn add_types(
    text: &mut Vec<u8>,
    session: &mut Session,
    known: &KnownDefinitions,
) -> Result<(), NoMemory>
    ensures session { session.new ≡ session.old }
    ensures text { OnOk result (Compiles session.old.known session.old.text (λ items. text.new.items
        ≡ text.old.items ++ types_in c_types (known_names known.now) (definitions_of items))) }
{
    add_types_in(text, session, known, &C_TYPES)
}

/// Adds those of a table.
fn add_types_in(
    text: &mut Vec<u8>,
    session: &mut Session,
    known: &KnownDefinitions,
    table: &[(&str, &str)],
) -> Result<(), NoMemory>
    ensures session { session.new ≡ session.old }
    ensures text { OnOk result (Compiles session.old.known session.old.text (λ items. text.new.items
        ≡ text.old.items ++ types_in (view_types table.now) (known_names known.now) (definitions_of items))) }
{
    // What the text defines is read, whatever the table has.
    let _ = session.item_count();
    for (name, declaration) in table {
        add_type(
            text,
            session,
            known,
            name.as_bytes(),
            declaration.as_bytes(),
        )?;
    }
    Ok(())
}

/// Adds a type of C, if the text lacks it.
fn add_type(
    text: &mut Vec<u8>,
    session: &mut Session,
    known: &KnownDefinitions,
    name: &[u8],
    declaration: &[u8],
) -> Result<(), NoMemory>
    ensures session { session.new ≡ session.old }
    ensures text { OnOk result (Compiles session.old.known session.old.text
        (λ items. text.new.items ≡ text.old.items ++ type_text
        (lacks_name (known_names known.now) (definitions_of items) name.now) declaration.now)) }
{
    if lacks(session, known, name)? {
        add(text, &[b"typedef ", declaration, b";\n"])?;
    }
    Ok(())
}

/// Whether the text uses a name that neither it nor what is known declares.
fn lacks(session: &mut Session, known: &KnownDefinitions, name: &[u8]) -> Result<bool, NoMemory>
    ensures session { session.new ≡ session.old }
    ensures lacks { IfOk result (λ lacks. Compiles session.old.known session.old.text
        (λ items. lacks ≡ lacks_name (known_names known.now) (definitions_of items) name.now)) }
{
    let lacks = session.lacks(name)?;
    Ok(known.view(name).is_none() && lacks)
}

/// The declaration of the type of C with this name.
pub(crate) fn c_type(name: &[u8]) -> Option<&'static str>
    ensures { option_map (λ d. d.now) result ≡ c_type name.now }
{
    declaration_in(&C_TYPES, name)
}

/// The first declaration that a table has for the name.
fn declaration_in(table: &[(&'static str, &'static str)], name: &[u8]) -> Option<&'static str>
    ensures { option_map (λ d. d.now) result ≡ lookup (bytes_eq name.now) (view_types table.now) }
{
    for (own, declaration) in table {
        if name == own.as_bytes() {
            return Some(declaration);
        }
    }
    None
}

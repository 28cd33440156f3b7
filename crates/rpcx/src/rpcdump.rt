//! What `rpcdump` does over the text of a schema, a tap and sinks.

ghost use Rattle.std.specs.Prelude.{◌≡◌, option_map, OnOk};
ghost use Rattle.rpcx.specs.Course.{course};
ghost use Rattle.rpcx.specs.Dumping.{schema_name, schema_text, HasDumped, Opens};

mod halt;
mod input;
mod showing;

use halt::tell_halt;
use showing::show;
use std::alloc::Global;
use std::mem;
use x_args::{DumpArgs, Mode, Status, tell_of_file};
use x_opening::{Opening, open_text};
use x_text::{Outlet, Sink, Tap};
use x_wire::{NFS2_X, Outcome, Schema};

/// Shows the bytes of a file by the types of the schema's text, that of NFS version 2 where none is given,
/// and answers the status: `Done` where all was shown and has no fault, `Faulty` where a fault was shown, or
/// where the text has faults, which it reports in this style, and `Failed` where the run could not be carried
/// out, which it tells, unless the output's reader has enough.
pub fn dump_run<I: Tap, O: Outlet, E: Sink>(
    alloc: Global,
    args: &DumpArgs,
    mode: Mode,
    schema: Option<&[u8]>,
    how: &Opening,
    input: &mut I,
    out: &mut O,
    err: &mut E,
) -> Status
    ensures dumped { HasDumped how.now args.now mode (schema_text (option_map (λ t. t.now) schema.entry))
        (course (I.state input.old) (I.state input.new) (O.state out.old) (O.state out.new))
        (O.is_closed out.new) (E.state err.old) (E.state err.new) result }
    ensures quiet { result ≡ Status.Done → err.new ≡ err.old }
{
    let schema = match open_schema(alloc, args, schema, how, err) {
        Ok(schema) => schema,
        Err(status) => return status,
    };
    let shown = show(alloc, args, mode, &schema, input, out);
    // The process ends next, and gives all memory back at once.
    mem::forget(schema);
    match shown {
        Ok(Outcome::Clean) => Status::Done,
        Ok(Outcome::Refused) => Status::Faulty,
        Err(halt) => {
            tell_halt(halt, args, out, err);
            Status::Failed
        }
    }
}

/// The types of the schema, or where its text has none the status.
fn open_schema<E: Sink>(
    alloc: Global,
    args: &DumpArgs,
    text: Option<&[u8]>,
    how: &Opening,
    err: &mut E,
) -> Result<Schema, Status>
    ensures opens { Opens how.now (schema_name args.now) (schema_text (option_map (λ t. t.now) text.entry))
        (E.state err.old) (E.state err.new) result }
    ensures quiet { OnOk result (err.new ≡ err.old) }
{
    let file = args.schema.unwrap_or("nfs2.x");
    open_types(alloc, file, text.unwrap_or(NFS2_X), how, err)
}

/// The types of the text of a file, or where it has none the status, as [`open_text`] tells why.
fn open_types<E: Sink>(
    alloc: Global,
    file: &str,
    text: &[u8],
    how: &Opening,
    err: &mut E,
) -> Result<Schema, Status>
    ensures opens { Opens how.now file.now text.now (E.state err.old) (E.state err.new) result }
    ensures quiet { OnOk result (err.new ≡ err.old) }
{
    let session = open_text(alloc, "rpcdump", file, text, how, err)?;
    let schema = session.schema();
    // The process ends soon, and gives all memory back at once.
    mem::forget(session);
    match schema {
        Ok(schema) => Ok(schema),
        // The text has no fault.
        Err(_) => {
            tell_of_file("rpcdump", "out of memory", "\n", err);
            Err(Status::Failed)
        }
    }
}

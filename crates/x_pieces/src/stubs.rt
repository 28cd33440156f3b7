//! The pieces of the client's stubs.

ghost use Rattle.std.specs.Prelude.{◌≡◌, ◌++◌, OnOk};
ghost use Rattle.x_trees.specs.View.{view_passed};
ghost use Rattle.x_pieces.specs.Stubs.{kept_type, kept_place, stub_head, stub_kept, stub_call, stub_end};
ghost use Rattle.x_pieces.specs.Views.{view_c};

use crate::add::add;
use crate::c_types::{CType, argument_type, passed_type};
use crate::procedures::{Call, ProcedurePiece, argument_in};
use x_text::NoMemory;
use x_trees::{Argument, Procedure};

/// The type of what a stub keeps of the result: `void` is kept as a byte.
fn kept_type(passed: &Option<Argument>) -> &[u8]
    ensures { result.now ≡ kept_type (view_passed passed.now) }
{
    match passed {
        Some(argument) => argument_type(argument).name,
        None => b"char",
    }
}

/// What a stub answers.
fn kept_place(passed: &Option<Argument>) -> &'static [u8]
    ensures { result.now ≡ kept_place (view_passed passed.now) }
{
    match passed {
        Some(_) => b"&clnt_res",
        None => b"(void *)&clnt_res",
    }
}

/// Adds the head of a stub.
fn add_head(
    text: &mut Vec<u8>,
    function: &[u8],
    argument: CType,
    passed: CType,
) -> Result<(), NoMemory>
    ensures { OnOk result (text.new.items ≡ text.old.items
        ++ stub_head function.now (view_c argument.entry) (view_c passed.entry)) }
{
    add(
        text,
        &[
            passed.name,
            b" *\n",
            function,
            b"(",
            argument.name,
            b" *argp, CLIENT *clnt)\n",
        ],
    )
}

/// Adds what a stub keeps.
fn add_kept(text: &mut Vec<u8>, passed: &Option<Argument>) -> Result<(), NoMemory>
    ensures { OnOk result (text.new.items ≡ text.old.items ++ stub_kept (view_passed passed.now)) }
{
    add(
        text,
        &[
            b"{\n    static ",
            kept_type(passed),
            b" clnt_res;\n",
            b"    static struct timeval timeout = { 25, 0 };\n",
            b"\n",
            b"    memset((char *)&clnt_res, 0, sizeof (clnt_res));\n",
        ],
    )
}

/// Adds a stub's call of the procedure of this name.
fn add_call(text: &mut Vec<u8>, name: &[u8], argument: CType, passed: CType) -> Result<(), NoMemory>
    ensures { OnOk result (text.new.items ≡ text.old.items
        ++ stub_call name.now (view_c argument.entry) (view_c passed.entry)) }
{
    add(
        text,
        &[
            b"    if (clnt_call(clnt, ",
            name,
            b", (xdrproc_t)xdr_",
            argument.routine,
            b", (char *)argp, (xdrproc_t)xdr_",
            passed.routine,
            b", (char *)&clnt_res, timeout) != RPC_SUCCESS)\n        return (NULL);\n",
        ],
    )
}

/// Adds what a stub ends with.
fn add_end(text: &mut Vec<u8>, passed: &Option<Argument>) -> Result<(), NoMemory>
    ensures { OnOk result (text.new.items ≡ text.old.items ++ stub_end (view_passed passed.now)) }
{
    add(text, &[b"    return (", kept_place(passed), b");\n}\n\n"])
}

/// The stub of a procedure.
pub struct Stub;

impl ProcedurePiece for Stub {
    ghost use Rattle.x_pieces.specs.Stubs.{stub};

    ghost piece = { λ _. stub };

    fn add(&self, text: &mut Vec<u8>, call: &Call, procedure: &Procedure) -> Result<(), NoMemory> {
        let argument = argument_in(&call.group, procedure);
        let passed = passed_type(&procedure.result);
        add_head(text, &call.function, argument, passed)?;
        add_kept(text, &procedure.result)?;
        add_call(text, &procedure.name, argument, passed)?;
        add_end(text, &procedure.result)
    }
}

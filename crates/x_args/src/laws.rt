//! A law of the definitions that the contracts of this crate speak of: a function that does nothing and
//! ensures it.
ghost use Rattle.x_args.specs.Args.{check_app, dump_app, edit_app, gen_app, serve_app};
ghost use Rattle.x_args.specs.Args.{MindsFirst};

/// Words whose first is `--help` ask for the help, and words whose first is `--version` for the version,
/// whatever follows it.
pub fn request_first()
    ensures rpcgen { MindsFirst gen_app }
    ensures check { MindsFirst check_app }
    ensures rpcedit { MindsFirst edit_app }
    ensures rpcdump { MindsFirst dump_app }
    ensures rpcls { MindsFirst serve_app }
{}

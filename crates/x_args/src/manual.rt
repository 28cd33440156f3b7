//! What the programs say of themselves.

/// The version of the programs.
pub const VERSION: &str = "0.1.0";

/// What a program says of itself.
#[derive(Clone, Copy, Debug)]
pub struct Manual<'a> {
    /// The name of the program.
    pub name: &'a str,
    /// What a command line looks like.
    pub usage: &'a str,
    /// What its `--help` shows after that line.
    pub help: &'a str,
}

/// What `rpcgen` says of itself.
pub const RPCGEN: Manual<'static> = Manual {
    name: "rpcgen",
    usage: "rpcgen -c|-h|-l|-t [-o OUT] FILE",
    help: "\
Compiles FILE, a .x file of the Sun RPC language (RFC 4506, RFC 5531), to C, or
reports what is wrong with it on standard error.

  -c            write the XDR routines of the types
  -h            write the header: types, constants and declarations
  -l            write the client's stubs, a function for each procedure
  -t            write the server's tables, a row for each procedure
  -o OUT        write to the file OUT in place of standard output
  --check       report the faults of one or more files: rpcgen --check FILE...
  --known FILE  take what this file defines as known, and write nothing of it
  --c-types     accept u_int and other types of C that have an XDR routine
  --foreign     take names that nobody declares as types or constants of C
  --explain     show each fault with its line and a hint, as on a terminal
  --plain       report one fault a line, also on a terminal
  --strict      names that clash in C are faults: report them, write nothing
  --help        show this text; --version shows the version

Give exactly one of -c, -h, -l, -t and --check. With #include, run cpp first.

Example: rpcgen -h -o point.h point.x

Exit status: 0 done; 1 FILE has faults, nothing was written; 2 the run failed.
",
};

/// What `rpcedit` says of itself.
pub const RPCEDIT: Manual<'static> = Manual {
    name: "rpcedit",
    usage: "rpcedit FILE",
    help: "\
Opens FILE, a .x file of the Sun RPC language, and answers commands from
standard input, one a line and in order. FILE itself is never changed.

  edit START END [HEX]  replace the bytes from START to END
  tokens                list the tokens and their places
  definitions           list the definitions
  faults                list the faults and their places
  explain               print what rpcgen --explain says of them
  clashes               list names that clash in C, of a text without faults
  header, routines, stubs, table
                        print what rpcgen -h, -c, -l or -t writes
  dump TYPE [HEX]       print the value of TYPE that these bytes encode

  --known FILE  take what this file defines as known
  --c-types     accept u_int and other types of C that have an XDR routine
  --foreign     take names that nobody declares as types or constants of C
  --help        show this text
  --version     show the version

Example: echo faults | rpcedit point.x

Exit status: 0 done; 1 a line was refused; 2 the run failed.
",
};

/// What `rpcdump` says of itself.
pub const RPCDUMP: Manual<'static> = Manual {
    name: "rpcdump",
    usage: "rpcdump [-x SCHEMA] [-b | -t TYPE] FILE",
    help: "\
Prints the calls and replies of FILE, a recorded stream of Sun RPC (RFC 5531),
by a .x file. Bytes that are not a valid encoding are refused, with the reason
and the place.

  -x SCHEMA     the .x file; the default is the schema of NFS version 2
  -b            FILE is one message, without a record around it
  -t TYPE       FILE is one value of TYPE
  --known FILE  take what this file defines as known
  --c-types     accept u_int and other types of C that have an XDR routine
  --help        show this text
  --version     show the version

Example: rpcdump -x add.x add.stream

Exit status: 0 done; 1 SCHEMA has faults, or a fault was printed; 2 the run
failed.
",
};

/// What `rpcls` says of itself.
pub const RPCLS: Manual<'static> = Manual {
    name: "rpcls",
    usage: "rpcls [--stdio]",
    help: "\
A language server for .x files of the Sun RPC language: it speaks LSP 3.17 on
standard input and output, follows each change and publishes what is wrong.

  --known FILE  take what this file defines as known
  --c-types     accept u_int and other types of C that have an XDR routine
  --foreign     take names that nobody declares as types or constants of C
  --fault-directives
                report lines for cpp as faults, which are blank otherwise
  --stdio       accepted for compatibility; has no effect
  --help        show this text
  --version     show the version

Example, a line for Neovim:
  vim.lsp.start({ name = 'rpcls', cmd = { 'rpcls' } })

Exit status: 0 the editor asked it to shut down and to exit; 1 it ended
otherwise, or a known file has faults; 2 the run failed.
",
};

//! Which of the four texts is meant.

/// A text that is generated: one for each of `rpcgen`'s letters `-h`, `-c`, `-l` and `-t`.
#[derive(Clone, Copy, Debug, PartialEq, Eq)]
pub enum Which {
    /// The header: types, constants and what is declared of procedures.
    Header,
    /// The XDR routines of the types.
    Routines,
    /// The client's stubs of the procedures.
    Stubs,
    /// The server's tables of procedures.
    Table,
}

//! What messages are made of (RFC 5531, sections 8 and 9).
ghost use Rattle.std.specs.Prelude.{◌≡◌};
ghost use Rattle.x_wire.specs.Messages.{accept_text, reject_text};

/// The most bytes that the body of an authentication field has (section 8.2).
pub const MOST_AUTH_BYTES: u32 = 400;

/// An authentication field (section 8.2).
#[derive(Clone, Copy, Debug)]
pub struct Auth<'a> {
    /// The kind of authentication: any number.
    pub flavor: u32,
    /// At most [`MOST_AUTH_BYTES`] bytes, lent from the message.
    pub body: &'a [u8],
}

/// What became of a call that was accepted (section 9, `accept_stat`).
#[derive(Clone, Copy, Debug)]
pub enum AcceptStat<'a> {
    /// The procedure was carried out.
    Success {
        /// Its results, lent from the message.
        body: &'a [u8],
    },
    /// The server has not the program.
    ProgUnavail,
    /// It has not this version of the program.
    ProgMismatch {
        /// The lowest version that it has.
        low: u32,
        /// The highest one.
        high: u32,
    },
    /// The program has not the procedure.
    ProcUnavail,
    /// The procedure could not read its arguments.
    GarbageArgs,
    /// The server failed.
    SystemErr,
}

/// Why a call was denied (section 9, `reject_stat`).
#[derive(Clone, Copy, Debug)]
pub enum RejectStat {
    /// The server has not this version of the protocol.
    RpcMismatch {
        /// The lowest version that it has.
        low: u32,
        /// The highest one.
        high: u32,
    },
    /// The caller could not be authenticated.
    AuthError {
        /// The reason: any number.
        auth_stat: u32,
    },
}

/// A call (section 9, `call_body`).
#[derive(Clone, Copy, Debug)]
pub struct Call<'a> {
    /// The version of the protocol: any number.
    pub rpcvers: u32,
    /// The number of the program.
    pub prog: u32,
    /// The version of the program.
    pub vers: u32,
    /// The number of the procedure.
    pub proc: u32,
    /// Who calls.
    pub cred: Auth<'a>,
    /// What proves it.
    pub verf: Auth<'a>,
    /// The arguments, lent from the message.
    pub body: &'a [u8],
}

/// A reply (section 9, `reply_body`).
#[derive(Clone, Copy, Debug)]
pub enum Reply<'a> {
    /// The server took the call.
    Accepted {
        /// Who answers.
        verf: Auth<'a>,
        /// What became of the call.
        stat: AcceptStat<'a>,
    },
    /// The server did not.
    Denied(RejectStat),
}

/// A call or a reply (section 9, `msg_type`).
#[derive(Clone, Copy, Debug)]
pub enum MessageKind<'a> {
    /// A call
    Call(Call<'a>),
    /// A reply
    Reply(Reply<'a>),
}

/// A message (section 9, `rpc_msg`).
#[derive(Clone, Copy, Debug)]
pub struct Message<'a> {
    /// The number that a call and its reply have in common.
    pub xid: u32,
    /// What it is.
    pub kind: MessageKind<'a>,
}

impl AcceptStat<'_> {
    /// The name that the RFC has for the state.
    pub fn text(&self) -> &'static str
        ensures { result.now ≡ accept_text self.now }
    {
        match self {
            AcceptStat::Success { .. } => "SUCCESS",
            AcceptStat::ProgUnavail => "PROG_UNAVAIL",
            AcceptStat::ProgMismatch { .. } => "PROG_MISMATCH",
            AcceptStat::ProcUnavail => "PROC_UNAVAIL",
            AcceptStat::GarbageArgs => "GARBAGE_ARGS",
            AcceptStat::SystemErr => "SYSTEM_ERR",
        }
    }
}

impl RejectStat {
    /// The name that the RFC has for the reason.
    pub fn text(&self) -> &'static str
        ensures { result.now ≡ reject_text self.now }
    {
        match self {
            RejectStat::RpcMismatch { .. } => "RPC_MISMATCH",
            RejectStat::AuthError { .. } => "AUTH_ERROR",
        }
    }
}

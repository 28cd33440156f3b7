//! What the first line of a message says.

/// Which message it is: its number among the messages, from 1, and the xid that it shares with its call or
/// its replies.
#[derive(Clone, Copy, Debug)]
pub(super) struct MessageId {
    pub(super) number: u64,
    pub(super) xid: u32,
}

/// What the first line of a message says of it, beside what stands in its own header.
#[derive(Clone, Copy, Debug)]
pub(super) struct Heading<'n> {
    pub(super) id: MessageId,
    /// The number of the call that a reply belongs to, if to any; of a call its own.
    pub(super) call: Option<u64>,
    /// The name of the procedure.
    pub(super) name: &'n [u8],
}

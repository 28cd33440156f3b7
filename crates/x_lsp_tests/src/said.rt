//! What a server says, as a text.

use std::alloc::Global;
use std::test::Fail;
use x_lsp::{Said, Server};
use x_text::{MemSink, Pen};

/// What ends a header.
const END_OF_HEAD: &[u8] = b"\r\n\r\n";

/// What a server says to a message, without its header.
pub fn text_of(alloc: Global, server: &Server, said: &Said) -> Result<Vec<u8>, Fail> {
    let mut room = [0u8; 8192];
    let mut sink = MemSink::new(&mut room, 8192, 8192);
    let mut pen = Pen::new();
    server.add_said(said, &mut pen, &mut sink);
    pen.flush(&mut sink);
    Ok(Vec::from_slice(alloc, body_of(sink.bytes()))?)
}

/// What stands behind the header.
fn body_of(bytes: &[u8]) -> &[u8] {
    for at in 0..bytes.len() {
        let rest = bytes.get(at..).unwrap_or_default();
        if let Some(body) = rest.strip_prefix(END_OF_HEAD) {
            return body;
        }
    }
    b""
}

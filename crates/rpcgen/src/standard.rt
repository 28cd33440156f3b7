//! The standard output as an output.

ghost use Rattle.std.specs.Prelude.{None, false};

use rpcx::{Output, OutputFault};
use std::io::Stdout;
use x_text::Out;

/// The standard output. It is written in place.
#[derive(Clone, Copy)]
pub struct Standard<'a> {
    /// The system.
    pub rt: &'a HostRuntime,
}

impl Output for Standard<'_> {
    type Opened = Out<Stdout>;

    ghost standing = { λ _. None };

    ghost has_draft = { λ _. false };

    fn open(&mut self) -> Result<Out<Stdout>, OutputFault> {
        Ok(Out::new(self.rt.stdout()))
    }

    fn keep(&mut self, _opened: Out<Stdout>) -> bool {
        true
    }

    fn let_go(&mut self, _opened: Out<Stdout>) {}
}

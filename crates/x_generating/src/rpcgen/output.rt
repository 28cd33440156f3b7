//! Where a run of `rpcgen` writes to.

ghost use Rattle.std.specs.Prelude.{◌≡◌, false, Bool, IsTrue, IfOk, OnErr};
ghost use Rattle.x_generating.specs.Outputs.{IsNamed, IsNew, Standing};

use x_text::Outlet;

/// Why an output is not opened.
#[derive(Clone, Copy, Debug, PartialEq, Eq)]
pub enum OutputFault {
    /// It cannot be written.
    Refused,
    /// Memory ran out.
    NoMemory,
}

/// Where a run of `rpcgen` writes to: a name that a whole text is given to, or what is written in place, as a
/// pipe. It is opened once the text was found to have no fault.
pub trait Output {
    /// What takes the bytes.
    type Opened: Outlet + Drop;

    /// What stands under its name, where it tells that. What is written in place tells nothing.
    ghost standing: { Self → Standing };

    /// Whether something that it made beside its name is left there.
    ghost has_draft: { Self → Bool };

    /// Opens it for a whole text: what stands under its name stays until [`Output::keep`].
    ///
    /// # Errors
    /// It cannot be written, or memory ran out. Then nothing was made.
    fn open(&mut self) -> Result<Self::Opened, OutputFault>
        ensures standing { standing self.new ≡ standing self.old }
        ensures empty { IfOk result (λ opened. IsNew (standing self.old) (Self.Opened.state opened).bytes) }
        ensures untouched { OnErr result (has_draft self.new ≡ has_draft self.old) };

    /// Gives its name to what was written, and answers whether it has it now. Where not, what stood there
    /// stays, and what was written is taken away.
    fn keep(&mut self, opened: Self::Opened) -> bool
        ensures named { IsTrue result → IsNamed (standing self.new) (Self.Opened.state opened).bytes }
        ensures unnamed { result ≡ false → standing self.new ≡ standing self.old }
        ensures tidy { has_draft self.new ≡ false };

    /// Takes away what was written. What stands under its name stays.
    fn let_go(&mut self, opened: Self::Opened)
        ensures standing { standing self.new ≡ standing self.old }
        ensures tidy { has_draft self.new ≡ false };
}

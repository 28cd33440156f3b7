//! Laws of messages.
ghost use Rattle.std.specs.Prelude.{◌≡◌, ℕ, List};
ghost use Rattle.x_value.specs.declared.fault.ReadCode.{ReadCode};
ghost use Rattle.x_wire.specs.Headers.{Header, IsMessage};
ghost use Rattle.x_wire.specs.HeaderFaults.{IsHeaderFault};

/// Bytes are one message at the most.
pub fn one_message()
    ensures { (bytes : List ℕ) (g h : Header) (a b : List ℕ) → IsMessage bytes g a → IsMessage bytes h b
        → (g ≡ h) × (a ≡ b) }
{}

/// Bytes that are a message have no fault.
pub fn one_answer()
    ensures { (bytes : List ℕ) (h : Header) (body : List ℕ) (at : ℕ) (code : ReadCode)
        → IsMessage bytes h body → IsHeaderFault bytes at code → ⊥ }
{}

/// Bytes have one fault at the most.
pub fn one_fault()
    ensures { (bytes : List ℕ) (at at' : ℕ) (code code' : ReadCode) → IsHeaderFault bytes at code
        → IsHeaderFault bytes at' code' → (at ≡ at') × (code ≡ code') }
{}

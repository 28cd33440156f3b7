//! Laws of encodings.
ghost use Rattle.std.specs.Prelude.{◌≡◌, ◌<◌, ◌++◌, ℕ, List, length};
ghost use Rattle.x_schema.specs.Schema.{Schema};
ghost use Rattle.x_schema.specs.declared.schema.TypeId.{TypeId};
ghost use Rattle.x_schema.specs.Sound.{IsSound};
ghost use Rattle.x_value.specs.Values.{Value, enc};
ghost use Rattle.x_value.specs.Layouts.{Layout, Spot, layout_at};
ghost use Rattle.x_value.specs.Readings.{Fits};
ghost use Rattle.x_value.specs.Dumps.{IsEncoding, IsReadFault, IsShown};
ghost use Rattle.x_value.specs.Shown.{Node};
ghost use Rattle.x_value.specs.declared.fault.ReadCode.{ReadCode};
ghost use Rattle.x_value.specs.declared.fault.ReadCode.TheVariants as codes;

/// No encoding of a type is a proper front of another, and equal encodings are of equal values. Every type
/// has a value that fits wherever it stands, also where as many links are open as may be.
pub fn enc_law()
    ensures one { (s : Schema) (l : Layout) (p : Spot) (v w : Value) (x y : List ℕ) → Fits s l p v
        → Fits s l p w → enc v ++ x ≡ enc w ++ y → (v ≡ w) × (x ≡ y) }
    ensures some { (s : Schema) → IsSound s → (form : ℕ) → form < length s.forms → (p : Spot)
        → (v : Value) × Fits s (layout_at s form) p v }
{}

/// Bytes are read in one way: they are a value, which is shown in one way, or they are refused, want of
/// memory aside, for one reason at one place, and not both.
pub fn one_reading()
    ensures showing { (s : Schema) (id : TypeId) (bytes : List ℕ) (shown shown' : List Node)
        → IsShown s id bytes shown → IsShown s id bytes shown' → shown ≡ shown' }
    ensures refusal { (s : Schema) (id : TypeId) (bytes : List ℕ) (at at' : ℕ) (code code' : ReadCode)
        → (code ≡ codes.NoMemory → ⊥) → (code' ≡ codes.NoMemory → ⊥) → IsReadFault s id bytes at code
        → IsReadFault s id bytes at' code' → (at ≡ at') × (code ≡ code') }
    ensures apart { (s : Schema) (id : TypeId) (bytes : List ℕ) (at : ℕ) (code : ReadCode)
        → (code ≡ codes.NoMemory → ⊥) → IsEncoding s id bytes → IsReadFault s id bytes at code → ⊥ }
{}

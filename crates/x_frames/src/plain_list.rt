//! Lists of JSON values.

ghost use Rattle.std.specs.Prelude.{◌≡◌, false};
ghost use Rattle.serde_json.specs.View.{items_view};
ghost use Rattle.serde_json.specs.Written.{items_have_float};

use serde_json::{Value, push};
use std::alloc::Global;
use x_text::NoMemory;

/// A list of values in which no float stands, so that it is written as it is.
#[derive(Drop)]
pub struct PlainList {
    values: Vec<Value>,
    ghost plain: { items_have_float (items_view values.items) ≡ false },
}

impl PlainList {
    ghost use Rattle.std.specs.Prelude.{◌≡◌, ◌++◌, [], ◌∷◌, false, OnOk};
    ghost use Rattle.serde_json.specs.Data.{array};
    ghost use Rattle.serde_json.specs.View.{items_of, view};
    ghost use Rattle.serde_json.specs.Written.{has_float};
    ghost use Rattle.x_frames.specs.Plain.{listed};

    /// No values.
    pub fn new(alloc: Global) -> PlainList
        ensures { listed result ≡ [] }
    {
        PlainList {
            values: Vec::new(alloc),
        }
    }

    /// Adds a value.
    pub fn push(&mut self, value: Value) -> Result<(), NoMemory>
        requires { has_float (view value) ≡ false }
        ensures { OnOk result (listed self.new ≡ listed self.old ++ view value ∷ []) }
    {
        push(&mut self.values, value)?;
        Ok(())
    }

    /// The list as a value.
    pub fn into_value(self) -> Value
        ensures plain { has_float (view result) ≡ false }
        ensures list { view result ≡ array (items_of (listed self)) }
    {
        Value::Array(self.values)
    }
}

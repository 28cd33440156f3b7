//! JSON objects.

ghost use Rattle.std.specs.Prelude.{◌≡◌, false};
ghost use Rattle.serde_json.specs.View.{members_view};
ghost use Rattle.serde_json.specs.Written.{members_have_float};

use serde_json::{Map, Value, put};
use std::alloc::{AllocError, Global};

/// Members of an object in which no float stands, so that it is written as it is.
#[derive(Drop)]
pub(crate) struct PlainObject {
    members: Map<String, Value>,
    ghost plain: { members_have_float (members_view members.entries) ≡ false },
}

impl PlainObject {
    ghost use Rattle.std.specs.Prelude.{◌≡◌, false, OnOk};
    ghost use Rattle.serde_json.specs.Data.{no_members, object, put as with_member, string};
    ghost use Rattle.serde_json.specs.View.{view};
    ghost use Rattle.serde_json.specs.Written.{has_float};
    ghost use Rattle.x_frames.specs.Plain.{members_in};

    /// No members.
    pub(crate) fn new(alloc: Global) -> PlainObject
        ensures { members_in result ≡ no_members }
    {
        PlainObject {
            members: Map::new(alloc),
        }
    }

    /// Puts a member in.
    pub(crate) fn put(&mut self, alloc: Global, key: &str, value: Value) -> Result<(), AllocError>
        requires { has_float (view value) ≡ false }
        ensures { OnOk result (members_in self.new ≡ with_member key.now (view value) (members_in self.old)) }
    {
        put(&mut self.members, alloc, key, value)
    }

    /// Puts a member in that is a text.
    pub(crate) fn put_text(
        &mut self,
        alloc: Global,
        key: &str,
        text: &str,
    ) -> Result<(), AllocError>
        ensures { OnOk result
            (members_in self.new ≡ with_member key.now (string text.now) (members_in self.old)) }
    {
        self.put(alloc, key, Value::String(String::from_str(alloc, text)?))
    }

    /// The object as a value.
    pub(crate) fn into_value(self) -> Value
        ensures plain { has_float (view result) ≡ false }
        ensures object { view result ≡ object (members_in self) }
    {
        Value::Object(self.members)
    }
}

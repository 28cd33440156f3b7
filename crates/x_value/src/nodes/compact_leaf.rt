//! What stands at the nodes of a value (RFC 4506, section 4).
ghost use Rattle.std.specs.Prelude.{◌≡◌, ◌<◌, ◌≤◌, ℕ, List, length, IsTrue, is_some};
ghost use Rattle.std.specs.Int.{from_be_bytes, w32, w64};
ghost use Rattle.x_schema.specs.Choices.{name_for};
ghost use Rattle.x_schema.specs.Schema.{Schema};
ghost use Rattle.x_schema.specs.Sound.{AreSoundEnumerators, is_legal};
ghost use Rattle.x_value.specs.Layouts.{body_leaf, number_size, enumerator, discriminant_leaf};
ghost use Rattle.x_value.specs.Entries.{leaf_of, body_at, IsKeptLeaf};
ghost use Rattle.x_value.specs.Work.{IsNamedForm};

use super::compact_node::CompactLeaf;
use byteorder::{BigEndian, ByteOrder};
use x_schema::{Enumerators, Form};

#[tactic(auto, using(x_units::proofs::UnitLemmas::big_number_4))]
fn word_of(bytes: &[u8]) -> u32
    requires { 4 ≤ length bytes.now }
    ensures { result ≡ from_be_bytes w32 bytes.now }
{
    BigEndian::read_u32(bytes)
}

#[tactic(auto, using(x_units::proofs::UnitLemmas::big_number_8))]
fn words_of(bytes: &[u8]) -> u64
    requires { 8 ≤ length bytes.now }
    ensures { result ≡ from_be_bytes w64 bytes.now }
{
    BigEndian::read_u64(bytes)
}

/// What a body of the form is shown as, where it stands at a place of the message.
#[inline(always)]
pub(crate) fn compact_body(form: &Form, body: &[u8], len: u32, at: usize) -> CompactLeaf
    requires { number_size form.now ≤ length body.now }
    ensures shown { (s : Schema) (m : List ℕ) → body_at m at len ≡ body.now
        → leaf_of s m result ≡ body_leaf form.now body.now }
    ensures named { (n : ℕ) → IsKeptLeaf n result }
{
    match form {
        Form::Void => CompactLeaf::Void,
        Form::Int => CompactLeaf::Signed(i64::from(word_of(body).cast_signed())),
        Form::UnsignedInt => CompactLeaf::Unsigned(u64::from(word_of(body))),
        Form::Hyper => CompactLeaf::Signed(words_of(body).cast_signed()),
        Form::UnsignedHyper => CompactLeaf::Unsigned(words_of(body)),
        Form::String(_) => CompactLeaf::Text(len, at),
        _ => CompactLeaf::Hex(len, at),
    }
}

/// The enumerator of the number that the word stands for.
pub(crate) fn compact_enumerator(names: &Enumerators, word: u32) -> CompactLeaf
    requires { IsTrue (is_some (name_for names.now word)) }
    ensures shown { (s : Schema) (m : List ℕ) → leaf_of s m result ≡ enumerator s names.now word }
    ensures named { (n : ℕ) → AreSoundEnumerators n names.now → IsKeptLeaf n result }
{
    match names.name(word) {
        Some(name) => CompactLeaf::Enumerator(name, word.cast_signed()),
        None => CompactLeaf::Void,
    }
}

/// The discriminant of a union, whose form this is.
pub(crate) fn compact_discriminant(form: &Form, word: u32) -> CompactLeaf
    requires { IsTrue (is_legal form.now word) }
    ensures shown { (s : Schema) (m : List ℕ) → leaf_of s m result ≡ discriminant_leaf s form.now word }
    ensures named { (n : ℕ) → IsNamedForm n form.now → IsKeptLeaf n result }
{
    match form {
        Form::Bool => CompactLeaf::Truth(word == 1),
        Form::Enum(names) => compact_enumerator(names, word),
        Form::UnsignedInt => CompactLeaf::Unsigned(u64::from(word)),
        _ => CompactLeaf::Signed(i64::from(word.cast_signed())),
    }
}

//! What is wrong with a word, in a sentence, and what helps.

ghost use Rattle.std.specs.Prelude.{◌≡◌, None, Some, option_map};
ghost use Rattle.x_streams.specs.Writing.{Adds};
ghost use Rattle.x_explain.specs.Sentences.{about, alone, helped, item_saying, no_constant, not_a_type};
ghost use Rattle.x_explain.specs.Sentences.{not_const_saying, not_type_saying, other_type, rule_saying};
ghost use Rattle.x_explain.specs.Sentences.{saying, sentence, view_sentence};

use crate::shown::add_shown;
use x_item::{FaultCode as ItemCode, NameKind};
use x_session::{FaultCode, RuleCode};
use x_text::{Pen, Sink};

/// What is said of a word.
#[derive(Clone, Copy, Debug)]
pub struct Sentence {
    /// What stands before the word, or all of it.
    pub front: &'static str,
    /// What comes after the word; none where the word is not shown.
    pub rear: Option<&'static str>,
    /// What helps, where there is something.
    pub help: Option<&'static str>,
}

/// What stands between a sentence and a name that may have been meant, where both are in one line,
pub const MEANT: &str = "; did you mean '";

/// and what comes after the name.
pub const MEANT_END: &str = "'?";

/// A sentence with its word.
fn about(front: &'static str, rear: &'static str) -> Sentence
    ensures { view_sentence result ≡ about front.now rear.now }
{
    Sentence {
        front,
        rear: Some(rear),
        help: None,
    }
}

/// The same with what helps.
fn helped(front: &'static str, rear: &'static str, help: &'static str) -> Sentence
    ensures { view_sentence result ≡ helped front.now rear.now help.now }
{
    Sentence {
        front,
        rear: Some(rear),
        help: Some(help),
    }
}

/// A sentence without its word.
fn alone(front: &'static str, help: Option<&'static str>) -> Sentence
    ensures { view_sentence result ≡ alone front.now (option_map (λ h. h.now) help.entry) }
{
    Sentence {
        front,
        rear: None,
        help,
    }
}

/// What is said of a word with a fault, by what its name is declared as.
pub fn sentence_of(code: FaultCode, kind: Option<NameKind>) -> Sentence
    ensures { view_sentence result ≡ saying code kind }
{
    match code {
        FaultCode::Syntax(code) => item_sentence(code),
        FaultCode::Rule(rule) => rule_sentence(rule, kind),
    }
}

/// What is said of a word of an item that spells no definition.
fn item_sentence(code: ItemCode) -> Sentence
    ensures { view_sentence result ≡ item_saying code }
{
    match code {
        ItemCode::Syntax => helped(
            "unexpected '",
            "'",
            "a word may be misspelt, missing before it, or one too many",
        ),
        ItemCode::BadByte => helped(
            "unexpected character '",
            "'",
            "words are made of ASCII letters, digits and '_'; comments are written /* .. */",
        ),
        ItemCode::BadNumber => helped(
            "invalid number '",
            "'",
            "write decimal digits, or 0x and hexadecimal, or 0 and octal ones; only decimals can be negative",
        ),
        ItemCode::OpenComment => alone("unterminated comment", Some("end it with */")),
        ItemCode::Directive => alone("preprocessor directive", Some("run cpp first: rpcgen-cpp")),
        ItemCode::Unfinished => helped(
            "unexpected end of text after '",
            "'",
            "close each '{' with '}', and end the definition with ';'",
        ),
    }
}

/// A sentence on a name that is no type.
fn not_a_type(front: &'static str) -> Sentence
    ensures { view_sentence result ≡ not_a_type front.now }
{
    helped(
        front,
        "'",
        "name a type here; struct, union, enum and typedef declare types",
    )
}

/// A sentence on a type of another keyword.
fn other_type(rear: &'static str, help: &'static str) -> Sentence
    ensures { view_sentence result ≡ other_type rear.now help.now }
{
    helped("'", rear, help)
}

/// What is said of a name that is no type, or one of another keyword.
fn not_type_sentence(kind: Option<NameKind>) -> Sentence
    ensures { view_sentence result ≡ not_type_saying kind }
{
    match kind {
        None => not_a_type("expected a type, found '"),
        Some(NameKind::Constant) => not_a_type("expected a type, found constant '"),
        Some(NameKind::Program) => not_a_type("expected a type, found program '"),
        Some(NameKind::Enum) => other_type(
            "' is declared as an enum",
            "write enum before it, or no keyword",
        ),
        Some(NameKind::Struct) => other_type(
            "' is declared as a struct",
            "write struct before it, or no keyword",
        ),
        Some(NameKind::Union) => other_type(
            "' is declared as a union",
            "write union before it, or no keyword",
        ),
        Some(NameKind::Typedef) => {
            other_type("' is declared with typedef", "write no keyword before it")
        }
    }
}

/// A sentence on a name that is no constant.
fn no_constant(front: &'static str) -> Sentence
    ensures { view_sentence result ≡ no_constant front.now }
{
    helped(
        front,
        "'",
        "write a number, or the name of a constant or an enumerator",
    )
}

/// What is said of a name that is no constant.
fn not_const_sentence(kind: Option<NameKind>) -> Sentence
    ensures { view_sentence result ≡ not_const_saying kind }
{
    match kind {
        Some(NameKind::Enum) => no_constant("expected a constant, found enum '"),
        Some(NameKind::Struct) => no_constant("expected a constant, found struct '"),
        Some(NameKind::Union) => no_constant("expected a constant, found union '"),
        Some(NameKind::Typedef) => no_constant("expected a constant, found typedef '"),
        Some(NameKind::Program) => no_constant("expected a constant, found program '"),
        Some(NameKind::Constant) | None => no_constant("expected a constant, found '"),
    }
}

/// What is said of a word that breaks a rule, by what its name is declared as.
fn rule_sentence(rule: RuleCode, kind: Option<NameKind>) -> Sentence
    ensures { view_sentence result ≡ rule_saying rule kind }
{
    match rule {
        RuleCode::Duplicate => helped(
            "'",
            "' is declared already",
            "constants, enumerators, types and programs need different names; so do inline types",
        ),
        RuleCode::Unknown => helped(
            "undeclared name '",
            "'",
            "declare it first; a syntax fault hides all up to the next ';' outside braces",
        ),
        RuleCode::LateName => helped(
            "'",
            "' is used before it is fully declared",
            "declare it first; only links to structs and unions, as in 'b *x' and 'b x<>', may come earlier",
        ),
        RuleCode::NotType => not_type_sentence(kind),
        RuleCode::NotConst => not_const_sentence(kind),
        RuleCode::Range => helped(
            "the value of '",
            "' is out of range",
            "constants: -2^63 to 2^64-1; enumerators: -2^31 to 2^31-1; other numbers: 0 to 2^32-1",
        ),
        RuleCode::BadSize => helped(
            "invalid size '",
            "'",
            "a size is from 0 to 2^32-1, and that of an array in [ ] at least 1",
        ),
        RuleCode::VoidPlace => helped(
            "'",
            "' is not allowed here",
            "void is an arm of a union, the only argument, or a result",
        ),
        RuleCode::EmptyArray => alone(
            "array size must be at least 1",
            Some("an array in < > may be empty"),
        ),
        RuleCode::BadDiscriminant => alone(
            "a discriminant must be a plain int, unsigned int, bool or enum",
            None,
        ),
        RuleCode::BadCase => helped(
            "'",
            "' is not a value of the discriminant",
            "write an enumerator of its enum, TRUE or FALSE for a bool, or a number for an int",
        ),
        RuleCode::RepeatedCase => about("duplicate case '", "'"),
        RuleCode::RepeatedField => about("duplicate member '", "'"),
        RuleCode::RepeatedNumber => helped(
            "duplicate number '",
            "'",
            "give each version of a program, and each procedure of a version, its own number",
        ),
        RuleCode::TooHigh => helped(
            "types are nested too deeply at '",
            "'",
            "at most 32 types may hold one another by value; a link, as in 's *x', ends the chain",
        ),
        RuleCode::InlineArgument => helped(
            "expected the name of a type or a basic type, found '",
            "'",
            "declare the type of an argument or a result first, and name it here",
        ),
        RuleCode::UsesFaulty => about("not checked further, '", "' has faults"),
    }
}

/// Adds the sentence of a fault and its word, by what that is declared as.
pub(crate) fn add_sentence<S: Sink>(
    code: FaultCode,
    kind: Option<NameKind>,
    word: &[u8],
    pen: &mut Pen,
    sink: &mut S,
)
    ensures { Adds pen.old (S.state sink.old) pen.new (S.state sink.new) (sentence code kind word.now) }
{
    let sentence = sentence_of(code, kind);
    pen.add(sentence.front.as_bytes(), sink);
    if let Some(rear) = sentence.rear {
        add_shown(word, false, pen, sink);
        pen.add(rear.as_bytes(), sink);
    }
}

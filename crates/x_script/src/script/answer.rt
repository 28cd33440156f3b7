//! What a script is answered.

ghost use Rattle.std.specs.Prelude.{◌≡◌, option_map};
ghost use Rattle.x_streams.specs.Writing.{Adds};
ghost use Rattle.x_lex.specs.Places.{lexeme};
ghost use Rattle.x_trees.specs.View.{view_body, view_declaration, view_definition};
ghost use Rattle.x_compile.specs.Compile.{tokens_of, definitions_of, faults_of};
ghost use Rattle.x_compile.specs.Generated.{text_of};
ghost use Rattle.x_session.specs.Session.{Compiles};
ghost use Rattle.x_session.specs.FaultLines.{fault_line};
ghost use Rattle.x_script.specs.Answers.{counted_by, body_keyword, keyword_of, given_name, own_name};
ghost use Rattle.x_script.specs.Answers.{shown_name, definition_line, token_line, tokens_answer};
ghost use Rattle.x_script.specs.Answers.{definitions_answer, faults_answer, text_answer};

use itoa::Integer;
use x_item::{Body, Declaration, Definition};
use x_lex::Token;
use x_session::{Fault, Session, Which, add_place};
use x_text::{Pen, Sink};
use x_value::add_number;

/// Adds a line with a name and a count.
#[tactic(auto, using(x_text::proofs::Adding::four))]
pub(crate) fn add_counted<I: Integer, S: Sink>(name: &str, count: I, pen: &mut Pen, sink: &mut S)
    ensures { Adds pen.old (S.state sink.old) pen.new (S.state sink.new)
        (counted_by name.now (I.text count)) }
{
    pen.add(name.as_bytes(), sink);
    pen.add(b" ", sink);
    add_number(count, pen, sink);
    pen.add(b"\n", sink);
}

/// Adds the line of a token.
#[tactic(auto, using(x_text::proofs::Adding::six))]
fn add_token<S: Sink>(token: &Token, pen: &mut Pen, sink: &mut S)
    ensures { Adds pen.old (S.state sink.old) pen.new (S.state sink.new) (token_line (lexeme token.now)) }
{
    add_number(token.start, pen, sink);
    pen.add(b" ", sink);
    add_number(token.end, pen, sink);
    pen.add(b" ", sink);
    pen.add(token.kind.name().as_bytes(), sink);
    pen.add(b"\n", sink);
}

/// The keyword that the definition begins with.
fn keyword(definition: &Definition) -> &'static str
    ensures { result.now ≡ keyword_of (view_definition definition.now) }
{
    match definition {
        Definition::Const { .. } => "const",
        Definition::Typedef(_) => "typedef",
        Definition::NewType { body, .. } => body_keyword(body),
        Definition::Program { .. } => "program",
    }
}

/// The keyword in front of the body of a type.
fn body_keyword(body: &Body) -> &'static str
    ensures { result.now ≡ body_keyword (view_body body.now) }
{
    match body {
        Body::Enum(_) => "enum",
        Body::Struct(_) => "struct",
        Body::Union(_) => "union",
    }
}

/// The name under which the definition is listed: its own, or `-` where it has none.
fn shown_name(definition: &Definition) -> &[u8]
    ensures { result.now ≡ shown_name (own_name (view_definition definition.now)) }
{
    match own_name(definition) {
        Some(name) => name,
        None => b"-",
    }
}

/// The definition's own name: `typedef void` has none.
fn own_name(definition: &Definition) -> Option<&[u8]>
    ensures { option_map (λ n. n.now) result ≡ own_name (view_definition definition.now) }
{
    match definition {
        Definition::Const { name, .. } => Some(name),
        Definition::Typedef(declaration) => given_name(declaration),
        Definition::NewType { name, .. } => Some(name),
        Definition::Program { name, .. } => Some(name),
    }
}

/// The name that a declaration gives: `void` gives none.
fn given_name(declaration: &Declaration) -> Option<&[u8]>
    ensures { option_map (λ n. n.now) result ≡ given_name (view_declaration declaration.now) }
{
    if declaration.is_void() {
        None
    } else {
        Some(declaration.name())
    }
}

/// Adds the line of a definition, which is that of the item with this number.
#[tactic(auto, using(x_text::proofs::Adding::six))]
fn add_definition<S: Sink>(item: usize, definition: &Definition, pen: &mut Pen, sink: &mut S)
    ensures { Adds pen.old (S.state sink.old) pen.new (S.state sink.new)
        (definition_line (item, view_definition definition.now)) }
{
    add_number(item, pen, sink);
    pen.add(b" ", sink);
    pen.add(keyword(definition).as_bytes(), sink);
    pen.add(b" ", sink);
    pen.add(shown_name(definition), sink);
    pen.add(b"\n", sink);
}

/// Adds the line of a fault.
#[tactic(auto, using(x_text::proofs::Adding::four))]
fn add_fault<S: Sink>(fault: &Fault, pen: &mut Pen, sink: &mut S)
    ensures { Adds pen.old (S.state sink.old) pen.new (S.state sink.new) (fault_line fault.now) }
{
    add_place(fault, pen, sink);
    pen.add(b" ", sink);
    pen.add(fault.code.text().as_bytes(), sink);
    pen.add(b"\n", sink);
}

/// Adds the tokens of a text.
pub(crate) fn add_tokens<S: Sink>(session: &Session, pen: &mut Pen, sink: &mut S)
    ensures { Compiles session.now.known session.now.text
        (λ items. Adds pen.old (S.state sink.old) pen.new (S.state sink.new)
        (tokens_answer (tokens_of items))) }
{
    add_counted("tokens", session.token_count(), pen, sink);
    for token in session.tokens() {
        add_token(&token, pen, sink);
    }
}

/// Adds the definitions of a text.
pub(crate) fn add_definitions<S: Sink>(session: &Session, pen: &mut Pen, sink: &mut S)
    ensures { Compiles session.now.known session.now.text
        (λ items. Adds pen.old (S.state sink.old) pen.new (S.state sink.new)
        (definitions_answer (definitions_of items))) }
{
    add_counted("definitions", session.definition_count(), pen, sink);
    for item in 0..session.item_count() {
        if let Some(definition) = session.definition(item) {
            add_definition(item, definition, pen, sink);
        }
    }
}

/// Adds the faults of a text.
pub(crate) fn add_faults<S: Sink>(session: &Session, pen: &mut Pen, sink: &mut S)
    ensures { Compiles session.now.known session.now.text
        (λ items. Adds pen.old (S.state sink.old) pen.new (S.state sink.new)
        (faults_answer (faults_of session.now.text items))) }
{
    add_counted("faults", session.fault_count(), pen, sink);
    for fault in session.faults() {
        add_fault(&fault, pen, sink);
    }
}

/// Adds a generated text.
pub(crate) fn add_text<S: Sink>(which: Which, session: &Session, pen: &mut Pen, sink: &mut S)
    ensures { Compiles session.now.known session.now.text
        (λ items. Adds pen.old (S.state sink.old) pen.new (S.state sink.new)
        (text_answer (text_of which session.now.base items))) }
{
    add_counted("text", session.text_length(which), pen, sink);
    session.add_text(which, pen, sink);
}

//! Reading of types and declarations, and of all that stands inside them. Each function takes the tokens that
//! are ahead, of which some may be no words, and gives back those after what it read; `depth` is how many
//! inline bodies may stand inside one another.
ghost use Rattle.std.specs.Prelude.{◌≡◌, ◌≢◌, ℕ, [], ◌∷◌, ◌++◌, ◌+◌, map, IfOk, IfErr};
ghost use Rattle.x_trees.specs.Words.{Fixed, Name};
ghost use Rattle.x_trees.specs.Tree.{default as one_default};
ghost use Rattle.x_trees.specs.View.{view_value, view_type, view_body, view_declaration};
ghost use Rattle.x_trees.specs.View.{view_arms, view_default};
ghost use Rattle.x_trees.specs.Gloss.{tag_mark, body_mark};
ghost use Rattle.x_trees.specs.Spell.{spell_type, spell_body};
ghost use Rattle.x_trees.specs.Spell.{spell_arms, spell_default, HasOne, HasArm, TypeFits};
ghost use Rattle.x_trees.specs.Spell.{BodyFits, DeclarationFits, ArmsFit, DefaultFits};
ghost use Rattle.x_parser.specs.Symbols.{Context, InDeclaration, Token as OfMark, AnyName, AnyValue};
ghost use Rattle.x_parser.specs.Symbols.{AnyLength};
ghost use Rattle.x_parser.specs.Symbols.{AfterLess, Typed, AfterType, AfterTag, AnyBody, Declared};
ghost use Rattle.x_parser.specs.Symbols.{Arms, AfterCase, ending_mark, AfterUnsigned};
ghost use Rattle.x_parser.specs.Reading.{ReadsPart, IsPart, Fails, spell_ended, spell_arm, HasFirst};

use crate::ParseError;
use crate::cases::cases;
use crate::declarator::{array_length, greatest_length, named};
use crate::ending::Ending;
use crate::enumerators::enumerators;
use crate::words::{Word, expect, first, name, strip_mark, stuck_at, terminated};
use std::alloc::Global;
use x_lex::{Mark, Token};
use x_trees::{
    Arm, Basic, Body, DataType, Declaration, Spelling, Tag, fitted, inline, struct_body, union_body,
};

/// Reads a type.
#[cycle(parser)]
pub fn data_type<'w, 't>(
    alloc: Global,
    depth: u32,
    tokens: &'w [Token<'t>],
) -> Result<(DataType, &'w [Token<'t>]), ParseError>
    ensures read { IfOk result (λ x. (c : Context) → ReadsPart [] (Typed depth c ∷ []) tokens.now
        (spell_type (view_type x.0)) (AfterType c ∷ []) x.1.now) }
    ensures fits { IfOk result (λ x. TypeFits (view_type x.0) depth) }
    ensures stuck { IfErr result (λ e. (c : Context) → Fails (Typed depth c ∷ []) tokens.now e) }
{
    let (word, rest) = first(tokens)?;
    match word {
        Word::Mark(mark) => match mark {
            Mark::Enum => tagged(alloc, Tag::Enum, depth, rest),
            Mark::Struct => tagged(alloc, Tag::Struct, depth, rest),
            Mark::Union => tagged(alloc, Tag::Union, depth, rest),
            _ => basic(mark, tokens, rest),
        },
        Word::Name(text) => Ok((DataType::Named(Spelling::from_slice(alloc, text)?), rest)),
        _ => Err(stuck_at(tokens)),
    }
}

/// Reads a type that begins with the mark, if it is one of keywords alone.
fn basic<'w, 't>(
    mark: Mark,
    tokens: &'w [Token<'t>],
    rest: &'w [Token<'t>],
) -> Result<(DataType, &'w [Token<'t>]), ParseError>
    requires first { HasFirst tokens.now (Fixed mark) rest.now }
    requires no_enum { mark ≢ Mark.Enum }
    requires no_struct { mark ≢ Mark.Struct }
    requires no_union { mark ≢ Mark.Union }
    ensures read { IfOk result (λ x. (n : ℕ) (c : Context) → ReadsPart [] (Typed n c ∷ []) tokens.now
        (spell_type (view_type x.0)) (AfterType c ∷ []) x.1.now) }
    ensures fits { IfOk result (λ x. (n : ℕ) → TypeFits (view_type x.0) n) }
    ensures stuck { IfErr result (λ e. (n : ℕ) (c : Context) → Fails (Typed n c ∷ []) tokens.now e) }
{
    match mark {
        Mark::Int => Ok((DataType::Basic(Basic::Int), rest)),
        Mark::Long => Ok((DataType::Basic(Basic::Long), rest)),
        Mark::Hyper => Ok((DataType::Basic(Basic::Hyper), rest)),
        Mark::Float => Ok((DataType::Basic(Basic::Float), rest)),
        Mark::Double => Ok((DataType::Basic(Basic::Double), rest)),
        Mark::Quadruple => Ok((DataType::Basic(Basic::Quadruple), rest)),
        Mark::Bool => Ok((DataType::Basic(Basic::Bool), rest)),
        Mark::Unsigned => unsigned(rest),
        _ => Err(stuck_at(tokens)),
    }
}

/// Reads what may stand after `unsigned`: the type.
pub fn unsigned<'w, 't>(tokens: &'w [Token<'t>]) -> Result<(DataType, &'w [Token<'t>]), ParseError>
    ensures read { IfOk result (λ x. (c : Context) → ReadsPart (Fixed Mark.Unsigned ∷ [])
        (AfterUnsigned c ∷ []) tokens.now (spell_type (view_type x.0)) (AfterType c ∷ []) x.1.now) }
    ensures fits { IfOk result (λ x. (n : ℕ) → TypeFits (view_type x.0) n) }
    ensures stuck { IfErr result (λ e. (c : Context) → Fails (AfterUnsigned c ∷ []) tokens.now e) }
{
    let (word, rest) = first(tokens)?;
    match word {
        Word::Mark(mark) => match mark {
            Mark::Int => Ok((DataType::Basic(Basic::UnsignedInt), rest)),
            Mark::Long => Ok((DataType::Basic(Basic::UnsignedLong), rest)),
            Mark::Hyper => Ok((DataType::Basic(Basic::UnsignedHyper), rest)),
            _ => Ok((DataType::Basic(Basic::Unsigned), tokens)),
        },
        _ => Ok((DataType::Basic(Basic::Unsigned), tokens)),
    }
}

/// Reads the name or the body after `enum`, `struct` or `union`.
#[cycle(parser)]
fn tagged<'w, 't>(
    alloc: Global,
    tag: Tag,
    depth: u32,
    tokens: &'w [Token<'t>],
) -> Result<(DataType, &'w [Token<'t>]), ParseError>
    ensures read { IfOk result (λ x. ReadsPart (Fixed (tag_mark tag) ∷ []) (AfterTag tag depth ∷ [])
        tokens.now (spell_type (view_type x.0)) [] x.1.now) }
    ensures fits { IfOk result (λ x. TypeFits (view_type x.0) depth) }
    ensures stuck { IfErr result (λ e. Fails (AfterTag tag depth ∷ []) tokens.now e) }
{
    let (word, rest) = first(tokens)?;
    match word {
        Word::Name(text) => {
            let name = Spelling::from_slice(alloc, text)?;
            Ok((DataType::Tagged { tag, name }, rest))
        }
        _ => {
            if depth == 0 {
                return Err(stuck_at(tokens));
            }
            let (body, rest) = body(alloc, tag, depth - 1, tokens)?;
            Ok((inline(alloc, body)?, rest))
        }
    }
}

/// Reads the body of an enum, a struct or a union.
#[cycle(parser)]
pub fn body<'w, 't>(
    alloc: Global,
    tag: Tag,
    depth: u32,
    tokens: &'w [Token<'t>],
) -> Result<(Body, &'w [Token<'t>]), ParseError>
    ensures read { IfOk result (λ x. IsPart (AnyBody tag depth) tokens.now
        (spell_body (view_body x.0)) x.1.now) }
    ensures of { IfOk result (λ x. body_mark (view_body x.0) ≡ tag_mark tag) }
    ensures fits { IfOk result (λ x. BodyFits (view_body x.0) depth) }
    ensures stuck { IfErr result (λ e. Fails (AnyBody tag depth ∷ []) tokens.now e) }
{
    match tag {
        Tag::Enum => body_of_enum(alloc, depth, tokens),
        Tag::Struct => body_of_struct(alloc, depth, tokens),
        Tag::Union => body_of_union(alloc, depth, tokens),
    }
}

/// Reads the body of an enum.
fn body_of_enum<'w, 't>(
    alloc: Global,
    depth: u32,
    tokens: &'w [Token<'t>],
) -> Result<(Body, &'w [Token<'t>]), ParseError>
    ensures read { IfOk result (λ x. IsPart (AnyBody Tag.Enum depth) tokens.now
        (spell_body (view_body x.0)) x.1.now) }
    ensures of { IfOk result (λ x. body_mark (view_body x.0) ≡ Mark.Enum) }
    ensures fits { IfOk result (λ x. BodyFits (view_body x.0) depth) }
    ensures stuck { IfErr result (λ e. Fails (AnyBody Tag.Enum depth ∷ []) tokens.now e) }
{
    let rest = expect(Mark::OpenBrace, tokens)?;
    let (members, rest) = enumerators(alloc, rest)?;
    Ok((Body::Enum(fitted(members)), rest))
}

/// Reads the body of a struct.
#[cycle(parser)]
fn body_of_struct<'w, 't>(
    alloc: Global,
    depth: u32,
    tokens: &'w [Token<'t>],
) -> Result<(Body, &'w [Token<'t>]), ParseError>
    ensures read { IfOk result (λ x. IsPart (AnyBody Tag.Struct depth) tokens.now
        (spell_body (view_body x.0)) x.1.now) }
    ensures of { IfOk result (λ x. body_mark (view_body x.0) ≡ Mark.Struct) }
    ensures fits { IfOk result (λ x. BodyFits (view_body x.0) depth) }
    ensures stuck { IfErr result (λ e. Fails (AnyBody Tag.Struct depth ∷ []) tokens.now e) }
{
    let mut left = expect(Mark::OpenBrace, tokens)?;
    let mut members = Vec::new(alloc);
    loop {
        let (member, rest) = declared(alloc, depth, Ending::Semicolon, left)?;
        members.push(member)?;
        if let Some(rest) = strip_mark(Mark::CloseBrace, rest) {
            return Ok((struct_body(members), rest));
        }
        left = rest;
    }
}

/// Reads the body of a union.
#[cycle(parser)]
fn body_of_union<'w, 't>(
    alloc: Global,
    depth: u32,
    tokens: &'w [Token<'t>],
) -> Result<(Body, &'w [Token<'t>]), ParseError>
    ensures read { IfOk result (λ x. IsPart (AnyBody Tag.Union depth) tokens.now
        (spell_body (view_body x.0)) x.1.now) }
    ensures of { IfOk result (λ x. body_mark (view_body x.0) ≡ Mark.Union) }
    ensures fits { IfOk result (λ x. BodyFits (view_body x.0) depth) }
    ensures stuck { IfErr result (λ e. Fails (AnyBody Tag.Union depth ∷ []) tokens.now e) }
{
    let rest = expect(Mark::Switch, tokens)?;
    let rest = expect(Mark::OpenParenthesis, rest)?;
    let (discriminant, rest) = declared(alloc, depth, Ending::Parenthesis, rest)?;
    let (arms, default, rest) = arms(alloc, depth, rest)?;
    Ok((union_body(alloc, discriminant, arms, default)?, rest))
}

/// Reads a declaration and its ending.
#[cycle(parser)]
pub fn declared<'w, 't>(
    alloc: Global,
    depth: u32,
    ending: Ending,
    tokens: &'w [Token<'t>],
) -> Result<(Declaration, &'w [Token<'t>]), ParseError>
    ensures read { IfOk result (λ x. IsPart (Declared depth ending) tokens.now
        (spell_ended (view_declaration x.0) ending) x.1.now) }
    ensures fits { IfOk result (λ x. DeclarationFits (view_declaration x.0) depth) }
    ensures stuck { IfErr result (λ e. Fails (Declared depth ending ∷ []) tokens.now e) }
{
    if let Some(rest) = strip_mark(Mark::Void, tokens) {
        return nothing(ending, rest);
    }
    if let Some(rest) = strip_mark(Mark::Opaque, tokens) {
        return opaque(alloc, ending, rest);
    }
    if let Some(rest) = strip_mark(Mark::String, tokens) {
        return string(alloc, ending, rest);
    }
    let (data, rest) = data_type(alloc, depth, tokens)?;
    let (name, shape, rest) = named(alloc, ending, rest)?;
    Ok((Declaration::Of { data, name, shape }, rest))
}

/// Reads the ending after `void`.
fn nothing<'w, 't>(
    ending: Ending,
    tokens: &'w [Token<'t>],
) -> Result<(Declaration, &'w [Token<'t>]), ParseError>
    ensures read { IfOk result (λ x. ReadsPart (Fixed Mark.Void ∷ []) (OfMark (ending_mark ending) ∷ [])
        tokens.now (spell_ended (view_declaration x.0) ending) [] x.1.now) }
    ensures fits { IfOk result (λ x. (n : ℕ) → DeclarationFits (view_declaration x.0) n) }
    ensures stuck { IfErr result (λ e. Fails (OfMark (ending_mark ending) ∷ []) tokens.now e) }
{
    let rest = expect(ending.mark(), tokens)?;
    Ok((Declaration::Void, rest))
}

/// Reads what stands after `opaque`, and the ending.
fn opaque<'w, 't>(
    alloc: Global,
    ending: Ending,
    tokens: &'w [Token<'t>],
) -> Result<(Declaration, &'w [Token<'t>]), ParseError>
    ensures read { IfOk result (λ x. ReadsPart (Fixed Mark.Opaque ∷ [])
        (AnyName ∷ AnyLength ∷ OfMark (ending_mark ending) ∷ []) tokens.now
        (spell_ended (view_declaration x.0) ending) [] x.1.now) }
    ensures fits { IfOk result (λ x. (n : ℕ) → DeclarationFits (view_declaration x.0) n) }
    ensures stuck { IfErr result
        (λ e. Fails (AnyName ∷ AnyLength ∷ OfMark (ending_mark ending) ∷ []) tokens.now e) }
{
    let (name, rest) = name(alloc, tokens)?;
    let (length, rest) = array_length(alloc, rest)?;
    let rest = expect(ending.mark(), rest)?;
    Ok((Declaration::Opaque { name, length }, rest))
}

/// Reads what stands after `string`, and the ending.
fn string<'w, 't>(
    alloc: Global,
    ending: Ending,
    tokens: &'w [Token<'t>],
) -> Result<(Declaration, &'w [Token<'t>]), ParseError>
    ensures read { IfOk result (λ x. ReadsPart (Fixed Mark.String ∷ [])
        (AnyName ∷ OfMark Mark.Less ∷ AfterLess ∷ OfMark (ending_mark ending) ∷ []) tokens.now
        (spell_ended (view_declaration x.0) ending) [] x.1.now) }
    ensures fits { IfOk result (λ x. (n : ℕ) → DeclarationFits (view_declaration x.0) n) }
    ensures stuck { IfErr result
        (λ e. Fails (AnyName ∷ OfMark Mark.Less ∷ AfterLess ∷ OfMark (ending_mark ending) ∷ [])
        tokens.now e) }
{
    let (name, rest) = name(alloc, tokens)?;
    let rest = expect(Mark::Less, rest)?;
    let (most, rest) = greatest_length(alloc, rest)?;
    let rest = expect(ending.mark(), rest)?;
    Ok((Declaration::String { name, most }, rest))
}

/// Reads the arms of a union and its default arm, with the braces around them.
#[cycle(parser)]
fn arms<'w, 't>(
    alloc: Global,
    depth: u32,
    tokens: &'w [Token<'t>],
) -> Result<(Vec<Arm>, Option<Declaration>, &'w [Token<'t>]), ParseError>
    ensures read { IfOk result (λ x. ReadsPart [] (OfMark Mark.OpenBrace ∷ Arms depth ∷ []) tokens.now (Fixed
        Mark.OpenBrace ∷ (spell_arms (view_arms x.0.items) ++ spell_default (view_default x.1))) [] x.2.now) }
    ensures fits { IfOk result (λ x. HasArm (view_arms x.0.items)
        × (ArmsFit (view_arms x.0.items) depth × DefaultFits (view_default x.1) depth)) }
    ensures stuck { IfErr result (λ e. Fails (OfMark Mark.OpenBrace ∷ Arms depth ∷ []) tokens.now e) }
{
    let rest = expect(Mark::OpenBrace, tokens)?;
    let mut left = expect(Mark::Case, rest)?;
    let mut arms = Vec::new(alloc);
    loop {
        let (member, rest) = arm(alloc, depth, left)?;
        arms.push(member)?;
        if let Some(rest) = strip_mark(Mark::CloseBrace, rest) {
            return Ok((arms, None, rest));
        }
        if let Some(rest) = strip_mark(Mark::Default, rest) {
            let (default, rest) = default_arm(alloc, depth, rest)?;
            return Ok((arms, Some(default), rest));
        }
        left = expect(Mark::Case, rest)?;
    }
}

/// Reads what stands after `default`, and the `}`.
#[cycle(parser)]
fn default_arm<'w, 't>(
    alloc: Global,
    depth: u32,
    tokens: &'w [Token<'t>],
) -> Result<(Declaration, &'w [Token<'t>]), ParseError>
    ensures read { IfOk result (λ x. ReadsPart (Fixed Mark.Default ∷ [])
        (OfMark Mark.Colon ∷ Declared depth Ending.Semicolon ∷ OfMark Mark.CloseBrace ∷ []) tokens.now
        (spell_default (one_default (view_declaration x.0))) [] x.1.now) }
    ensures fits { IfOk result (λ x. DeclarationFits (view_declaration x.0) depth) }
    ensures stuck { IfErr result (λ e. Fails
        (OfMark Mark.Colon ∷ Declared depth Ending.Semicolon ∷ OfMark Mark.CloseBrace ∷ []) tokens.now e) }
{
    let rest = expect(Mark::Colon, tokens)?;
    let (declaration, rest) = declared(alloc, depth, Ending::Semicolon, rest)?;
    let (declaration, rest) = terminated(declaration, Mark::CloseBrace, rest)?;
    Ok((declaration, rest))
}

/// Reads an arm after its first `case`.
#[cycle(parser)]
fn arm<'w, 't>(
    alloc: Global,
    depth: u32,
    tokens: &'w [Token<'t>],
) -> Result<(Arm, &'w [Token<'t>]), ParseError>
    ensures read { IfOk result (λ x. ReadsPart (Fixed Mark.Case ∷ [])
        (AnyValue ∷ OfMark Mark.Colon ∷ AfterCase depth ∷ []) tokens.now
        (spell_arm (map view_value x.0.cases.items) (view_declaration x.0.declaration)) [] x.1.now) }
    ensures some { IfOk result (λ x. HasOne (map view_value x.0.cases.items)) }
    ensures fits { IfOk result (λ x. DeclarationFits (view_declaration x.0.declaration) depth) }
    ensures stuck { IfErr result
        (λ e. Fails (AnyValue ∷ OfMark Mark.Colon ∷ AfterCase depth ∷ []) tokens.now e) }
{
    let (cases, rest) = cases(alloc, tokens)?;
    let (declaration, rest) = declared(alloc, depth, Ending::Semicolon, rest)?;
    Ok((Arm { cases, declaration }, rest))
}

//! Reading of programs: RFC 5531, section 12. Each function takes the tokens that are ahead, of which some
//! may be no words, and gives back those after what it read.
ghost use Rattle.std.specs.Prelude.{[], ◌∷◌, ◌++◌, map, IfOk, IfErr};
ghost use Rattle.x_trees.specs.Words.{Fixed, Number};
ghost use Rattle.x_trees.specs.View.{view_argument, view_passed, view_procedure, view_version};
ghost use Rattle.x_trees.specs.Spell.{spell_argument, spell_passed, spell_others, spell_procedure};
ghost use Rattle.x_trees.specs.Spell.{spell_procedures, spell_version, spell_versions, HasOne, ArgumentFits};
ghost use Rattle.x_trees.specs.Spell.{PassedFits, OthersFit, ProcedureFits, ProceduresFit, VersionFits};
ghost use Rattle.x_trees.specs.Spell.{VersionsFit};
ghost use Rattle.x_parser.specs.Symbols.{InArguments, AnyName, AfterType, Parameters, Arguments};
ghost use Rattle.x_parser.specs.Symbols.{Result as AnyResult, of_number, of_arguments, of_procedure};
ghost use Rattle.x_parser.specs.Symbols.{of_procedures, of_version, of_versions};
ghost use Rattle.x_parser.specs.Reading.{ReadsPart, Fails};

use crate::ParseError;
use crate::declaration::data_type;
use crate::words::{expect, name, number, strip_mark};
use std::alloc::Global;
use x_lex::{Mark, Token};
use x_trees::{Argument, MOST_INLINE, Procedure, Spelling, Version, fitted};

/// Reads an argument: `string` or a type.
fn argument<'w, 't>(
    alloc: Global,
    tokens: &'w [Token<'t>],
) -> Result<(Argument, &'w [Token<'t>]), ParseError>
    ensures read { IfOk result (λ x. ReadsPart [] (Arguments ∷ []) tokens.now
        (spell_argument (view_argument x.0)) (AfterType InArguments ∷ []) x.1.now) }
    ensures fits { IfOk result (λ x. ArgumentFits (view_argument x.0)) }
    ensures stuck { IfErr result (λ e. Fails (Arguments ∷ []) tokens.now e) }
{
    if let Some(rest) = strip_mark(Mark::String, tokens) {
        return Ok((Argument::String, rest));
    }
    let (data, rest) = data_type(alloc, MOST_INLINE, tokens)?;
    Ok((Argument::Of(data), rest))
}

/// Reads the first argument: `void`, `string` or a type.
fn first_argument<'w, 't>(
    alloc: Global,
    tokens: &'w [Token<'t>],
) -> Result<(Option<Argument>, &'w [Token<'t>]), ParseError>
    ensures read { IfOk result (λ x. ReadsPart [] (Parameters ∷ []) tokens.now
        (spell_passed (view_passed x.0)) (AfterType InArguments ∷ []) x.1.now) }
    ensures fits { IfOk result (λ x. PassedFits (view_passed x.0)) }
    ensures stuck { IfErr result (λ e. Fails (Parameters ∷ []) tokens.now e) }
{
    if let Some(rest) = strip_mark(Mark::Void, tokens) {
        return Ok((None, rest));
    }
    let (argument, rest) = argument(alloc, tokens)?;
    Ok((Some(argument), rest))
}

/// Reads a result: `void`, `string` or a type.
fn returned<'w, 't>(
    alloc: Global,
    tokens: &'w [Token<'t>],
) -> Result<(Option<Argument>, &'w [Token<'t>]), ParseError>
    ensures read { IfOk result (λ x. ReadsPart [] (AnyResult ∷ []) tokens.now (spell_passed (view_passed x.0))
        (AnyName ∷ []) x.1.now) }
    ensures fits { IfOk result (λ x. PassedFits (view_passed x.0)) }
    ensures stuck { IfErr result (λ e. Fails (AnyResult ∷ []) tokens.now e) }
{
    if let Some(rest) = strip_mark(Mark::Void, tokens) {
        return Ok((None, rest));
    }
    if let Some(rest) = strip_mark(Mark::String, tokens) {
        return Ok((Some(Argument::String), rest));
    }
    let (data, rest) = data_type(alloc, MOST_INLINE, tokens)?;
    Ok((Some(Argument::Of(data)), rest))
}

/// Reads the arguments, of which the first may be `void`, with the parentheses around them.
fn arguments<'w, 't>(
    alloc: Global,
    tokens: &'w [Token<'t>],
) -> Result<(Option<Argument>, Vec<Argument>, &'w [Token<'t>]), ParseError>
    ensures read { IfOk result (λ x. ReadsPart [] of_arguments tokens.now (Fixed Mark.OpenParenthesis
        ∷ ((spell_passed (view_passed x.0) ++ spell_others (map view_argument x.1.items))
        ++ Fixed Mark.CloseParenthesis ∷ [])) [] x.2.now) }
    ensures first_fits { IfOk result (λ x. PassedFits (view_passed x.0)) }
    ensures others_fit { IfOk result (λ x. OthersFit (map view_argument x.1.items)) }
    ensures stuck { IfErr result (λ e. Fails of_arguments tokens.now e) }
{
    let rest = expect(Mark::OpenParenthesis, tokens)?;
    let (head, mut left) = first_argument(alloc, rest)?;
    let mut others = Vec::new(alloc);
    loop {
        if let Some(rest) = strip_mark(Mark::CloseParenthesis, left) {
            return Ok((head, others, rest));
        }
        let rest = expect(Mark::Comma, left)?;
        let (next, rest) = argument(alloc, rest)?;
        others.push(next)?;
        left = rest;
    }
}

/// Reads `=`, a number and `;`.
pub fn assigned_number<'w, 't>(
    alloc: Global,
    tokens: &'w [Token<'t>],
) -> Result<(Spelling, &'w [Token<'t>]), ParseError>
    ensures read { IfOk result (λ x. ReadsPart [] of_number tokens.now
        (Fixed Mark.Equals ∷ Number x.0.items ∷ Fixed Mark.Semicolon ∷ []) [] x.1.now) }
    ensures stuck { IfErr result (λ e. Fails of_number tokens.now e) }
{
    let rest = expect(Mark::Equals, tokens)?;
    let (number, rest) = number(alloc, rest)?;
    let rest = expect(Mark::Semicolon, rest)?;
    Ok((number, rest))
}

/// Reads a procedure.
fn procedure<'w, 't>(
    alloc: Global,
    tokens: &'w [Token<'t>],
) -> Result<(Procedure, &'w [Token<'t>]), ParseError>
    ensures read { IfOk result (λ x. ReadsPart [] of_procedure tokens.now
        (spell_procedure (view_procedure x.0)) [] x.1.now) }
    ensures fits { IfOk result (λ x. ProcedureFits (view_procedure x.0)) }
    ensures stuck { IfErr result (λ e. Fails of_procedure tokens.now e) }
{
    let (result, rest) = returned(alloc, tokens)?;
    let (name, rest) = name(alloc, rest)?;
    let (first, others, rest) = arguments(alloc, rest)?;
    let (number, rest) = assigned_number(alloc, rest)?;
    let procedure = Procedure {
        result,
        name,
        first,
        others,
        number,
    };
    Ok((procedure, rest))
}

/// Reads the procedures of a version, with the braces around them.
fn procedures<'w, 't>(
    alloc: Global,
    tokens: &'w [Token<'t>],
) -> Result<(Vec<Procedure>, &'w [Token<'t>]), ParseError>
    ensures read { IfOk result (λ x. ReadsPart [] of_procedures tokens.now (Fixed Mark.OpenBrace
        ∷ (spell_procedures (map view_procedure x.0.items) ++ Fixed Mark.CloseBrace ∷ [])) [] x.1.now) }
    ensures some { IfOk result (λ x. HasOne (map view_procedure x.0.items)) }
    ensures fits { IfOk result (λ x. ProceduresFit (map view_procedure x.0.items)) }
    ensures stuck { IfErr result (λ e. Fails of_procedures tokens.now e) }
{
    let mut left = expect(Mark::OpenBrace, tokens)?;
    let mut members = Vec::new(alloc);
    loop {
        let (member, rest) = procedure(alloc, left)?;
        members.push(member)?;
        if let Some(rest) = strip_mark(Mark::CloseBrace, rest) {
            return Ok((members, rest));
        }
        left = rest;
    }
}

/// Reads a version.
fn version<'w, 't>(
    alloc: Global,
    tokens: &'w [Token<'t>],
) -> Result<(Version, &'w [Token<'t>]), ParseError>
    ensures read { IfOk result (λ x. ReadsPart [] of_version tokens.now
        (spell_version (view_version x.0)) [] x.1.now) }
    ensures fits { IfOk result (λ x. VersionFits (view_version x.0)) }
    ensures stuck { IfErr result (λ e. Fails of_version tokens.now e) }
{
    let rest = expect(Mark::Version, tokens)?;
    let (name, rest) = name(alloc, rest)?;
    let (procedures, rest) = procedures(alloc, rest)?;
    let (number, rest) = assigned_number(alloc, rest)?;
    let version = Version {
        name,
        procedures: fitted(procedures),
        number,
    };
    Ok((version, rest))
}

/// Reads the versions of a program, with the braces around them.
pub fn versions<'w, 't>(
    alloc: Global,
    tokens: &'w [Token<'t>],
) -> Result<(Vec<Version>, &'w [Token<'t>]), ParseError>
    ensures read { IfOk result (λ x. ReadsPart [] of_versions tokens.now (Fixed Mark.OpenBrace
        ∷ (spell_versions (map view_version x.0.items) ++ Fixed Mark.CloseBrace ∷ [])) [] x.1.now) }
    ensures some { IfOk result (λ x. HasOne (map view_version x.0.items)) }
    ensures fits { IfOk result (λ x. VersionsFit (map view_version x.0.items)) }
    ensures stuck { IfErr result (λ e. Fails of_versions tokens.now e) }
{
    let mut left = expect(Mark::OpenBrace, tokens)?;
    let mut members = Vec::new(alloc);
    loop {
        let (member, rest) = version(alloc, left)?;
        members.push(member)?;
        if let Some(rest) = strip_mark(Mark::CloseBrace, rest) {
            return Ok((members, rest));
        }
        left = rest;
    }
}

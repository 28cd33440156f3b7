//! What is answered to questions about a whole document.

ghost use Rattle.std.specs.Prelude.{◌≡◌, true, Err, None, IfErr, IfOk, IfSome, option_map};
ghost use Rattle.std.specs.Str.Lossy.{utf8_lossy};
ghost use Rattle.serde_json.specs.Data.{array, string};
ghost use Rattle.serde_json.specs.View.{items_of, view};
ghost use Rattle.serde_json.specs.Written.{compact_text};
ghost use Rattle.x_compile.specs.Compile.{tokens_of};
ghost use Rattle.x_session.specs.Session.{Compiles};
ghost use Rattle.x_frames.specs.Answers.{IsText};
ghost use Rattle.x_frames.specs.Lives.{is_of_question};
ghost use Rattle.x_frames.specs.declared.answers.ErrorCode.TheVariants.{InvalidParams};
ghost use Rattle.x_frames.specs.declared.method.DocumentQuestion.TheVariants.{Folds, Symbols, Text, Tokens};
ghost use Rattle.x_contents.specs.DocumentTexts.{told_text};
ghost use Rattle.x_contents.specs.Folds.{folds_in};
ghost use Rattle.x_contents.specs.Kept.{found_text};
ghost use Rattle.x_contents.specs.Symbols.{symbols_in};
ghost use Rattle.x_contents.specs.Tokens.{numbers_in, tokens_data};
ghost use Rattle.x_contents.specs.Wanting.{wanted_in};

use crate::folds::folds;
use crate::found::Found;
use crate::generated::text;
use crate::symbols::symbols;
use crate::tokens::tokens;
use crate::wanted::which_in;
use serde_json::Value;
use std::alloc::Global;
use x_frames::{DocumentQuestion, ErrorCode};
use x_positions::Encoding;
use x_session::Session;
use x_text::Source;

/// The result of a question about a whole document, whose text is shown, and compiled in the session, as
/// JSON. What is found of it is kept at once as it will be written, or with phrases.
///
/// # Errors
///
/// What the request is refused for: its parameters, or want of memory.
pub fn answer_about_document(
    alloc: Global,
    encoding: Encoding,
    shown: &Source,
    session: &Session,
    question: DocumentQuestion,
    params: Option<&Value>,
) -> Result<Found, ErrorCode>
    ensures value { IfOk result (λ found. IsText (found_text found)) }
    ensures code { IfErr result (λ code. is_of_question code ≡ true) }
    ensures refused { result ≡ Err InvalidParams
        → (question ≡ Text) × (wanted_in (option_map (λ p. view p.now) params.entry) ≡ None) }
    ensures symbols { question ≡ Symbols → IfOk result (λ found. Compiles session.now.known session.now.text
        (λ items. found_text found ≡ compact_text (array (items_of (symbols_in encoding shown.now items))))) }
    ensures folds { question ≡ Folds → IfOk result (λ found. Compiles session.now.known session.now.text
        (λ items. found_text found
        ≡ compact_text (array (items_of (folds_in shown.now (tokens_of items)))))) }
    ensures tokens { question ≡ Tokens → IfOk result (λ found. Compiles session.now.known session.now.text
        (λ items. found_text found ≡ compact_text (tokens_data (numbers_in encoding shown.now items)))) }
    ensures text { question ≡ Text → IfSome (wanted_in (option_map (λ p. view p.now) params.entry))
        (λ wanted. IfOk result (λ found. Compiles session.now.known session.now.text
        (λ items. found_text found ≡ compact_text
        (string (utf8_lossy (told_text wanted session.now.base session.now.text items)))))) }
{
    match question {
        DocumentQuestion::Symbols => Ok(Found::Phrased(symbols(alloc, encoding, shown, session)?)),
        DocumentQuestion::Folds => Ok(Found::Text(folds(alloc, shown, session)?)),
        DocumentQuestion::Tokens => Ok(Found::Text(tokens(alloc, encoding, shown, session)?)),
        DocumentQuestion::Text => match which_in(params) {
            Some(wanted) => Ok(Found::Text(text(alloc, session, wanted)?)),
            None => Err(ErrorCode::InvalidParams),
        },
    }
}

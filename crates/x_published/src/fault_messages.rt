//! What is said of faults, kept from one publication to the next.

ghost use Rattle.std.specs.List.{before_first};
ghost use Rattle.std.specs.Prelude.{◌≡◌, ◌==◌, ◌++◌, IfOk, IfSome, IsTrue, [], codes, length, option_map};
ghost use Rattle.std.specs.Prelude.{OnOk, string_bytes, take};
ghost use Rattle.x_rules.specs.declared.fault.RuleCode.TheVariants.{Unknown};
ghost use Rattle.x_compile.specs.Faults.{fault_text};
ghost use Rattle.x_compile.specs.declared.fault.FaultCode.TheVariants.{Rule};
ghost use Rattle.x_published.specs.Diagnostics.{branch_message, fault_number};
ghost use Rattle.x_published.specs.FaultMessages.{GoesOn};

use crate::published::{Diagnostic, Message, Severity};
use memchr::memchr;
use std::alloc::{AllocError, Global};
use std::str;
use x_explain::{Known, MEANT, MEANT_END, Sentence, escape_of, sentence_of};
use x_frames::number;
use x_item::{FaultCode as ItemCode, NameKind};
use x_session::{FaultCode, RuleCode};

/// How much room is made at once for what stands around the word of a message.
const FRAME: usize = 96;

/// What is said of a directive that begins a branch.
const BRANCH: &str = "14 Directive: not read: both branches of #if are";

/// How many messages are kept at most, so that a text of faults alone takes no more memory for good.
const MOST_KEPT: usize = 65_536;

/// What is said of a fault at a word: the name of the fault, and a sentence that tells it of the word.
#[derive(Debug, Drop)]
pub struct FaultMessage {
    /// The fault.
    pub code: FaultCode,
    /// What its word is declared as, if the sentence says that.
    kind: Option<NameKind>,
    /// The number of the fault.
    pub number: usize,
    /// What is said.
    pub text: String,
    /// Where the word stands in the text, and how long it is; none if the sentence does not show it.
    word: Option<(usize, usize)>,
    /// The same of the name that is suggested for it.
    suggested: Option<(usize, usize)>,
    ghost numbered: { number ≡ fault_number code },
    ghost told: { take (length (fault_text code ++ codes ": ")) (string_bytes text)
        ≡ fault_text code ++ codes ": " },
}

impl FaultMessage {
    /// The message of a fault, by what is known of its word.
    fn of(alloc: Global, code: FaultCode, known: &Known) -> Result<FaultMessage, AllocError>
        ensures { IfOk result (λ message. message.code ≡ code) }
    {
        let mut text = String::with_capacity(alloc, FRAME.saturating_add(known.name.len()))?;
        text.push_str(code.text())?;
        text.push_str(": ")?;
        let word = add_sentence(&mut text, code, known)?;
        let suggested = add_suggestion(&mut text, known)?;
        Ok(FaultMessage {
            code,
            kind: kind_of(known),
            number: fault_number(code),
            text,
            word,
            suggested,
        })
    }

    /// Whether this is the message of a fault, by what is known of its word.
    fn is_of(&self, code: FaultCode, known: &Known) -> bool
        ensures { IsTrue result → self.now.code ≡ code }
    {
        if self.code != code || self.kind != kind_of(known) {
            return false;
        }
        let same_word = match self.word {
            None => true,
            Some(at) => self.has(at, known.name),
        };
        let same_suggestion = match (self.suggested, known.suggested) {
            (None, None) => true,
            (Some(at), Some(name)) => self.has(at, name),
            _ => false,
        };
        same_word && same_suggestion
    }

    /// Whether a word stands at a place of the text, and has this length.
    fn has(&self, (at, length): (usize, usize), word: &[u8]) -> bool {
        match self.text.as_bytes().get(at..) {
            Some(rest) => word.len() == length && rest.starts_with(word),
            None => false,
        }
    }
}

/// The message of a directive that begins a branch, where directives are blanked.
pub fn branch_message(alloc: Global) -> Result<FaultMessage, AllocError>
    ensures text { IfOk result (λ message. string_bytes message.text ≡ branch_message) }
    ensures number { IfOk result (λ message. message.number ≡ 14) }
{
    let code = FaultCode::Syntax(ItemCode::Directive);
    Ok(FaultMessage {
        code,
        kind: None,
        number: fault_number(code),
        text: String::from_str(alloc, BRANCH)?,
        word: None,
        suggested: None,
    })
}

/// The message of a name that is taken from C.
pub fn foreign_message(alloc: Global, name: &[u8]) -> Result<FaultMessage, AllocError>
    ensures { IfOk result (λ message. message.code ≡ Rule Unknown) }
{
    let code = FaultCode::Rule(RuleCode::Unknown);
    let mut text = String::with_capacity(alloc, FRAME.saturating_add(name.len()))?;
    text.push_str(code.text())?;
    text.push_str(": ")?;
    add_quoted(&mut text, "'", name, "' is taken from C")?;
    Ok(FaultMessage {
        code,
        kind: None,
        number: fault_number(code),
        text,
        word: None,
        suggested: None,
    })
}

/// What the name of a fault is declared as.
fn kind_of(known: &Known) -> Option<NameKind>
    ensures { result ≡ option_map (λ first. first.place.kind) known.now.first }
{
    Some(known.first?.place.kind)
}

/// Adds what is wrong to a text, and tells where the word stands there, and how long it is.
fn add_sentence(
    text: &mut String,
    code: FaultCode,
    known: &Known,
) -> Result<Option<(usize, usize)>, AllocError>
    ensures { OnOk result (GoesOn (string_bytes text.old) (string_bytes text.new)) }
{
    let Sentence { front, rear, .. } = sentence_of(code, kind_of(known));
    match rear {
        Some(rear) => Ok(Some(add_quoted(text, front, known.name, rear)?)),
        None => {
            text.push_str(front)?;
            Ok(None)
        }
    }
}

/// Adds the name that may have been meant, and tells where it stands, and how long it is.
fn add_suggestion(text: &mut String, known: &Known) -> Result<Option<(usize, usize)>, AllocError>
    ensures { OnOk result (GoesOn (string_bytes text.old) (string_bytes text.new)) }
{
    match known.suggested {
        Some(name) => Ok(Some(add_quoted(text, MEANT, name, MEANT_END)?)),
        None => Ok(None),
    }
}

/// Adds a word with what stands before and after it, and tells where it stands, and how long it is.
fn add_quoted(
    text: &mut String,
    front: &str,
    word: &[u8],
    rear: &str,
) -> Result<(usize, usize), AllocError>
    ensures { OnOk result (GoesOn (string_bytes text.old) (string_bytes text.new)) }
{
    let escape = escape_of(word.first().copied().unwrap_or(0));
    // A word that is no UTF-8 is one byte that begins no token.
    let word = match str::from_utf8(word) {
        Ok(word) => word,
        Err(_) => str::from_utf8(&escape).unwrap_or("?"),
    };
    text.push_str(front)?;
    let at = text.len();
    text.push_str(word)?;
    text.push_str(rear)?;
    Ok((at, word.len()))
}

/// The messages of the faults that were published last.
#[derive(Debug, Drop)]
pub struct FaultMessages {
    /// Those that are left, from the last to the first.
    list: Vec<FaultMessage>,
}

impl FaultMessages {
    /// The messages of no fault.
    pub fn new(alloc: Global) -> FaultMessages
        ensures { result.list.items ≡ [] }
    {
        FaultMessages {
            list: Vec::new(alloc),
        }
    }

    /// The message of the next fault: the one that was published, if it is of the same word, else a new one.
    pub fn next(
        &mut self,
        alloc: Global,
        code: FaultCode,
        known: &Known,
    ) -> Result<FaultMessage, AllocError>
        ensures { IfOk result (λ message. message.code ≡ code) }
    {
        match self.take(code, known) {
            Some(message) => Ok(message),
            None => FaultMessage::of(alloc, code, known),
        }
    }

    /// Takes the next message, or the one behind it, if it is of this word.
    fn take(&mut self, code: FaultCode, known: &Known) -> Option<FaultMessage>
        ensures { IfSome result (λ message. message.code ≡ code) }
    {
        let message = self.list.pop()?;
        if message.is_of(code, known) {
            return Some(message);
        }
        // Where a fault is gone, its message is to be passed over, and where one came, none.
        let behind = self.list.pop()?;
        if behind.is_of(code, known) {
            return Some(behind);
        }
        self.list.push(behind).ok()?;
        self.list.push(message).ok()?;
        None
    }

    /// Keeps the messages of the faults that were published, and no others; none where there are too many of
    /// them, or memory runs out.
    pub fn keep(&mut self, published: Vec<Diagnostic>) {
        let mut published = published;
        self.list.clear();
        if published.len() > MOST_KEPT || self.list.reserve(published.len()).is_err() {
            return;
        }
        while let Some(diagnostic) = published.pop() {
            // A hint has the number of a fault too, and is none.
            if diagnostic.severity != Severity::Hint
                && keep_message(&mut self.list, diagnostic.message).is_err()
            {
                return;
            }
        }
    }
}

/// Keeps what is said of a fault.
fn keep_message(list: &mut Vec<FaultMessage>, message: Message) -> Result<(), AllocError> {
    match message {
        Message::OfFault(message) => list.push(message)?,
        Message::Plain(_text) => {}
    }
    Ok(())
}

/// The number of a fault, which its text begins with.
fn fault_number(code: FaultCode) -> usize
    ensures { result ≡ fault_number code }
{
    number(first_word(code.text().as_bytes())).unwrap_or(0)
}

/// The bytes before the first space.
#[tactic(auto, using(crate::proofs::DiagnosticLemmas::word_found))]
fn first_word(text: &[u8]) -> &[u8]
    ensures { result.now ≡ before_first (λ b. b == 32) text.now }
{
    match memchr(b' ', text) {
        Some(at) => &text[..at],
        None => text,
    }
}

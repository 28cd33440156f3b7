//! What is kept with an item.

ghost use Rattle.std.specs.Prelude.{◌≡◌, ◌≤◌, [], length, map, IfOk, None, option_copied};
ghost use Rattle.x_streams.specs.Counters.{raised};
ghost use Rattle.x_text.specs.declared.text.source.TheConstants.{MAX_TEXT};
ghost use Rattle.x_lex.specs.Places.{lexeme};
ghost use Rattle.x_item.specs.Parse.{IsParse};
ghost use Rattle.x_trees.specs.View.{tree_at};
ghost use Rattle.x_rules.specs.KeptViews.{lent_outcome};
ghost use Rattle.x_compile.specs.Compile.{faults_at, rule_faults};
ghost use Rattle.x_compile.specs.Counting.{faults_with};
ghost use Rattle.x_compile.specs.FaultWalk.{IsToldBy};
ghost use Rattle.x_compile.specs.Generated.{lines_of};
ghost use Rattle.x_compile.specs.KeptView.{IsItem, IsMarked, byte_count, found_pieces, found_result};
ghost use Rattle.x_compile.specs.KeptView.{is_marked, kept_definition, kept_found, kept_lines, kept_parse};
ghost use Rattle.x_compile.specs.KeptView.{renewed_pieces, view_parse};

use crate::lines::lines_of;
use std::alloc::Global;
use std::mem;
use x_gen::Pieces;
use x_item::{Definition, FaultCode, ItemEntry, Parsed, parse_item};
use x_lex::Token;
use x_rules::{Checked, RuleCode, WordFault};
use x_text::{Meter, NoMemory};

/// What an item parses to.
#[derive(Drop)]
pub enum Parse {
    /// It has no words.
    Nothing,
    /// The definition that its words spell.
    Def(Definition),
    /// Its words spell no definition.
    Fault {
        /// The index of the token in the item at which the fault stands.
        token: u32,
        /// What is wrong.
        code: FaultCode,
    },
}

/// What checking a definition found.
pub struct CheckResult {
    pub checked: Checked,
    /// What is generated of it, where it has no fault.
    pub pieces: Option<Pieces>,
}

// By hand, so that who lets it go calls this, and need not prove anew how its parts are let go.
impl Drop for CheckResult {
    fn drop(self) {
        let CheckResult {
            checked: _,
            pieces: _,
        } = self;
    }
}

/// What is kept with an item that has a definition or lines that pass through.
pub struct ItemBody {
    parse: Parse,
    /// The lines that pass through: without their `%`, each with a line feed.
    lines: Vec<u8>,
    /// What was found of its definition.
    found: Option<Box<CheckResult>>,
}

// By hand, so that who lets it go calls this, and need not prove anew how its parts are let go.
impl Drop for ItemBody {
    fn drop(self) {
        let ItemBody {
            parse: _,
            lines: _,
            found: _,
        } = self;
    }
}

/// What is kept with an item, in few bytes where it has neither a definition nor lines: a text may be 16
/// million `;`.
///
/// That it has faults stands here and not in its box, and a single one by the rules stands here too: boxes
/// lie far apart, and most items that have faults have one, so who goes over them opens few.
#[derive(Drop)]
pub enum Content {
    /// It has neither words nor lines.
    Nothing,
    /// Its words spell no definition, and it has no lines.
    Fault {
        /// The index of the token in the item at which the fault stands.
        token: u32,
        /// What is wrong.
        code: FaultCode,
    },
    /// It has a definition or lines, and no fault.
    Sound(Box<ItemBody>),
    /// It has a definition that breaks one rule, as its box says too.
    OneFault {
        /// The rule that it breaks.
        code: RuleCode,
        /// The word that breaks it, counted as in [`WordFault`].
        word: u32,
        /// The same as of other items.
        body: Box<ItemBody>,
    },
    /// It has a definition or lines, and other faults than a single one by the rules.
    Faulty(Box<ItemBody>),
}

impl Default for Content {
    fn default() -> Content {
        Content::Nothing
    }
}

const _: () = prove!(size_of::<ItemEntry<Content>>() == 24);

/// The faults of an item.
#[derive(Clone, Copy)]
pub enum Verdict<'k> {
    /// Its words spell no definition.
    Syntax {
        /// The index of the token in the item at which the fault stands.
        token: u32,
        /// What is wrong.
        code: FaultCode,
    },
    /// Its definition breaks this one rule.
    Rule(WordFault),
    /// Its definition breaks these rules, at its words.
    Rules(&'k [WordFault]),
}

/// The item that these tokens are, with what they parse to. Counts it as parsed.
pub fn entry_of(
    alloc: Global,
    tokens: &[Token],
    meter: &mut Meter,
) -> Result<ItemEntry<Content>, NoMemory>
    requires few { length tokens.now ≤ MAX_TEXT }
    requires small { byte_count (map lexeme tokens.now) ≤ MAX_TEXT }
    ensures item { IfOk result (λ entry. IsItem (map lexeme tokens.now) entry) }
    ensures unchecked { IfOk result (λ entry. kept_found entry.kept ≡ None) }
    ensures counted { meter.new ≡ record meter.old { parsed = raised meter.old.parsed 1 } }
{
    let kept = Content::parsed(alloc, tokens, meter)?;
    Ok(ItemEntry {
        tokens: tokens.len() as u32,
        bytes: byte_count(tokens),
        kept,
    })
}

impl Content {
    /// What is kept of the item that these tokens are, before it is checked. Counts it as parsed.
    pub fn parsed(alloc: Global, tokens: &[Token], meter: &mut Meter) -> Result<Content, NoMemory>
        requires few { length tokens.now ≤ MAX_TEXT }
        ensures parse { IfOk result (λ kept. IsParse (map lexeme tokens.now) (kept_parse kept)) }
        ensures lines { IfOk result (λ kept. kept_lines kept ≡ lines_of (map lexeme tokens.now)) }
        ensures unchecked { IfOk result (λ kept. kept_found kept ≡ None) }
        ensures marked { IfOk result IsMarked }
        ensures counted { meter.new ≡ record meter.old { parsed = raised meter.old.parsed 1 } }
    {
        let parse = match parse_item(alloc, tokens, meter)? {
            Parsed::Nothing => Parse::Nothing,
            Parsed::Def(definition) => Parse::Def(definition),
            Parsed::Fault { token, code } => Parse::Fault {
                token: token as u32,
                code,
            },
        };
        Content::of(alloc, parse, lines_of(alloc, tokens)?)
    }

    /// What is kept of an item that parses so, with these lines.
    fn of(alloc: Global, parse: Parse, lines: Vec<u8>) -> Result<Content, NoMemory>
        ensures parse { IfOk result (λ kept. kept_parse kept ≡ view_parse parse) }
        ensures lines { IfOk result (λ kept. kept_lines kept ≡ lines.items) }
        ensures unchecked { IfOk result (λ kept. kept_found kept ≡ None) }
        ensures marked { IfOk result IsMarked }
    {
        if lines.is_empty() {
            match &parse {
                Parse::Nothing => return Ok(Content::Nothing),
                Parse::Fault { token, code } => {
                    return Ok(Content::Fault {
                        token: *token,
                        code: *code,
                    });
                }
                Parse::Def(_) => {}
            }
        }
        let body = ItemBody {
            parse,
            lines,
            found: None,
        };
        Ok(Content::marked(Box::new(alloc, body)?))
    }

    /// This, with what stands in it said of it: whether the item has faults, and which one if that is all.
    fn marked(body: Box<ItemBody>) -> Content
        ensures parse { kept_parse result ≡ view_parse body.value.parse }
        ensures lines { kept_lines result ≡ body.value.lines.items }
        ensures found { kept_found result ≡ body.value.found }
        ensures marked { IsMarked result }
    {
        if matches!(body.parse, Parse::Fault { .. }) {
            return Content::Faulty(body);
        }
        match faults_of(&body.found) {
            [] => Content::Sound(body),
            [fault] => {
                let code = fault.code;
                match u32::try_from(fault.word) {
                    Ok(word) => Content::OneFault { code, word, body },
                    // There is no room for it beside the box.
                    Err(_) => Content::Faulty(body),
                }
            }
            _ => Content::Faulty(body),
        }
    }

    /// Whether the item has faults. Unlike [`Content::told`] it looks at nothing else.
    pub(crate) fn is_faulty(&self) -> bool
        ensures { result ≡ is_marked self.now }
    {
        matches!(
            self,
            Content::Fault { .. } | Content::OneFault { .. } | Content::Faulty(_)
        )
    }

    /// The definition of the item, if it has one.
    pub fn definition(&self) -> Option<&Definition>
        ensures { tree_at result ≡ kept_definition self.now }
    {
        match self {
            Content::Sound(body) | Content::OneFault { body, .. } | Content::Faulty(body) =>
                match &body.parse {
                    Parse::Def(definition) => Some(definition),
                    _ => None,
                },
            _ => None,
        }
    }

    /// The lines of the item that pass through: without their `%`, each with a line feed.
    pub fn lines(&self) -> &[u8]
        ensures { result.now ≡ kept_lines self.now }
    {
        match self {
            Content::Sound(body) | Content::OneFault { body, .. } | Content::Faulty(body) =>
                &body.lines,
            _ => &[],
        }
    }

    /// What is generated of the item's definition, if it has one, and no fault.
    pub fn pieces(&self) -> Option<&Pieces>
        ensures { option_copied result ≡ found_pieces (kept_found self.now) }
    {
        match self {
            Content::Sound(body) | Content::OneFault { body, .. } | Content::Faulty(body) => {
                body.found.as_ref()?.pieces.as_ref()
            }
            _ => None,
        }
    }

    /// The faults of the item. Where it has one by the rules alone, its box stays closed.
    pub(crate) fn told(&self) -> Verdict<'_>
        requires { IsMarked self.now }
        ensures { IsToldBy (kept_parse self.now) (rule_faults (found_result (kept_found self.now))) result }
    {
        match self {
            Content::Nothing => Verdict::Rules(&[]),
            Content::Fault { token, code } => Verdict::Syntax {
                token: *token,
                code: *code,
            },
            Content::OneFault { code, word, .. } => Verdict::Rule(WordFault {
                word: *word as usize,
                code: *code,
            }),
            Content::Sound(body) | Content::Faulty(body) => match body.parse {
                Parse::Fault { token, code } => Verdict::Syntax { token, code },
                _ => Verdict::Rules(faults_of(&body.found)),
            },
        }
    }

    /// What checking found of the item's definition.
    pub fn checked(&self) -> Option<&Checked>
        ensures { lent_outcome result ≡ found_result (kept_found self.now) }
    {
        match self {
            Content::Sound(body) | Content::OneFault { body, .. } | Content::Faulty(body) => {
                Some(&body.found.as_ref()?.checked)
            }
            _ => None,
        }
    }

    /// How many faults the item has, where its definition breaks these rules.
    pub fn fault_count(&self, ruled: &[WordFault]) -> usize
        ensures { result ≡ length (faults_at [] (kept_parse self.now) ruled.now) }
    {
        match self {
            Content::Nothing => ruled.len(),
            Content::Fault { .. } => 1,
            Content::Sound(body) | Content::OneFault { body, .. } | Content::Faulty(body) =>
                match body.parse {
                    Parse::Fault { .. } => 1,
                    _ => ruled.len(),
                },
        }
    }

    /// How many faults the item has.
    pub fn own_fault_count(&self) -> usize
        ensures { result ≡ faults_with self.now (kept_found self.now) }
    {
        match self {
            Content::Sound(body) | Content::OneFault { body, .. } | Content::Faulty(body) => {
                self.fault_count(faults_of(&body.found))
            }
            _ => self.fault_count(&[]),
        }
    }

    /// Keeps what was found of the item's definition. What was generated of it before stays where it has no
    /// fault and nothing was generated anew.
    pub fn keep(&mut self, found: Option<Box<CheckResult>>)
        requires { kept_definition self.old ≡ None → found ≡ None }
        ensures parse { kept_parse self.new ≡ kept_parse self.old }
        ensures lines { kept_lines self.new ≡ kept_lines self.old }
        ensures result { found_result (kept_found self.new) ≡ found_result found }
        ensures pieces { found_pieces (kept_found self.new)
            ≡ renewed_pieces (found_pieces (kept_found self.old)) found }
        ensures marked { IsMarked self.old → IsMarked self.new }
    {
        *self = match mem::replace(self, Content::Nothing) {
            Content::Sound(mut body)
            | Content::OneFault { mut body, .. }
            | Content::Faulty(mut body) => {
                let old = body.found.take();
                body.found = renewed(old, found);
                Content::marked(body)
            }
            other => other,
        };
    }
}

/// How many bytes tokens have together.
pub fn byte_count(tokens: &[Token]) -> u32
    requires { byte_count (map lexeme tokens.now) ≤ MAX_TEXT }
    ensures { result ≡ byte_count (map lexeme tokens.now) }
{
    let mut count: usize = 0;
    for token in tokens {
        count = count.saturating_add(token.text.len());
    }
    count as u32
}

/// What was found anew, with the pieces of what was found before where those stay.
fn renewed(old: Option<Box<CheckResult>>, new: Option<Box<CheckResult>>) -> Option<Box<CheckResult>>
    ensures result { found_result result ≡ found_result new }
    ensures pieces { found_pieces result ≡ renewed_pieces (found_pieces old) new }
{
    let mut new = new?;
    if new.pieces.is_none() && new.checked.faults().is_empty() {
        if let Some(mut old) = old {
            new.pieces = old.pieces.take();
        }
    }
    Some(new)
}

/// The faults by the rules that were found.
pub fn faults_of(found: &Option<Box<CheckResult>>) -> &[WordFault]
    ensures { result.now ≡ rule_faults (found_result found.now) }
{
    match found {
        Some(found) => found.checked.faults(),
        None => &[],
    }
}

//! The requests that the server knows.

ghost use Rattle.std.specs.Prelude.{◌≡◌};
ghost use Rattle.x_frames.specs.Lives.{document_question_named, method_named, position_question_named};
ghost use Rattle.x_frames.specs.Lives.{question_named};

/// A request that the server knows.
#[derive(Clone, Copy, Debug, PartialEq, Eq)]
pub enum Method {
    Initialize,
    Shutdown,
    /// A question about a document.
    Ask(Question),
}

/// A question about a document.
#[derive(Clone, Copy, Debug, PartialEq, Eq)]
pub enum Question {
    /// About the whole of it.
    OfDocument(DocumentQuestion),
    /// About a position in it.
    OfPosition(PositionQuestion),
}

/// A question about a whole document.
#[derive(Clone, Copy, Debug, PartialEq, Eq)]
pub enum DocumentQuestion {
    /// What does it define?
    Symbols,
    /// Which of its lines can be folded away?
    Folds,
    /// What is each of its tokens?
    Tokens,
    /// What is generated of it, or what is wrong with it?
    Text,
}

/// A question about a position in a document.
#[derive(Clone, Copy, Debug, PartialEq, Eq)]
pub enum PositionQuestion {
    /// Where is the name there declared first?
    Definition,
    /// Where is it used?
    References,
    /// Where does it stand in the document?
    Highlights,
    /// What is it?
    Hover,
    /// Which words can stand there?
    Completion,
    /// May it be renamed?
    PrepareRename,
    /// What renames it?
    Rename,
}

impl Method {
    /// The request of this name.
    pub fn named(name: &str) -> Option<Method>
        ensures { result ≡ method_named name.now }
    {
        if name == "initialize" {
            Some(Method::Initialize)
        } else if name == "shutdown" {
            Some(Method::Shutdown)
        } else {
            match Question::named(name) {
                Some(question) => Some(Method::Ask(question)),
                None => None,
            }
        }
    }
}

impl Question {
    /// The question of this name.
    fn named(name: &str) -> Option<Question>
        ensures { result ≡ question_named name.now }
    {
        match DocumentQuestion::named(name) {
            Some(question) => Some(Question::OfDocument(question)),
            None => match PositionQuestion::named(name) {
                Some(question) => Some(Question::OfPosition(question)),
                None => None,
            },
        }
    }
}

impl DocumentQuestion {
    /// The question of this name.
    fn named(name: &str) -> Option<DocumentQuestion>
        ensures { result ≡ document_question_named name.now }
    {
        if name == "textDocument/documentSymbol" {
            Some(DocumentQuestion::Symbols)
        } else if name == "textDocument/foldingRange" {
            Some(DocumentQuestion::Folds)
        } else if name == "textDocument/semanticTokens/full" {
            Some(DocumentQuestion::Tokens)
        } else if name == "rpcgen/text" {
            Some(DocumentQuestion::Text)
        } else {
            None
        }
    }
}

impl PositionQuestion {
    /// The question of this name.
    fn named(name: &str) -> Option<PositionQuestion>
        ensures { result ≡ position_question_named name.now }
    {
        if name == "textDocument/definition" {
            Some(PositionQuestion::Definition)
        } else if name == "textDocument/references" {
            Some(PositionQuestion::References)
        } else if name == "textDocument/documentHighlight" {
            Some(PositionQuestion::Highlights)
        } else if name == "textDocument/hover" {
            Some(PositionQuestion::Hover)
        } else if name == "textDocument/completion" {
            Some(PositionQuestion::Completion)
        } else if name == "textDocument/prepareRename" {
            Some(PositionQuestion::PrepareRename)
        } else if name == "textDocument/rename" {
            Some(PositionQuestion::Rename)
        } else {
            None
        }
    }
}

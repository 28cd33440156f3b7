//! A server: what it says to each message, and the documents that are open.

ghost use Rattle.std.specs.Prelude.{◌≡◌, ◌≢◌, ◌⊎◌, IfErr, IfOk, IfSome, IsTrue, MatchBool, None, codes};
ghost use Rattle.std.specs.Prelude.{Err, false, option_map, true};
ghost use Rattle.std.specs.Str.{IsUtf8};
ghost use Rattle.serde_json.specs.Data.{null};
ghost use Rattle.serde_json.specs.Find.{get};
ghost use Rattle.serde_json.specs.Read.{read};
ghost use Rattle.serde_json.specs.View.{view};
ghost use Rattle.serde_json.specs.Written.{has_float};
ghost use Rattle.x_streams.specs.Writing.{Adds};
ghost use Rattle.x_contents.specs.Kept.{found_text};
ghost use Rattle.x_documents.specs.Grounds.{ground_of};
ghost use Rattle.x_documents.specs.Noting.{Notes};
ghost use Rattle.x_documents.specs.Replies.{said_of};
ghost use Rattle.x_documents.specs.Views.{documents_of, view_document};
ghost use Rattle.x_frames.specs.Answers.{IsRefused, IsSaid, IsSaidTo, IsText, IsToMethod, IsToNotification};
ghost use Rattle.x_frames.specs.Answers.{IsToRequest, framed, framed_if};
ghost use Rattle.x_frames.specs.Lives.{end_of, is_of_question, is_of_request, life_behind, life_noted};
ghost use Rattle.x_frames.specs.Lives.{method_named};
ghost use Rattle.x_frames.specs.Messages.{asked_by};
ghost use Rattle.x_frames.specs.Notes.{noted_by};
ghost use Rattle.x_frames.specs.declared.answers.ErrorCode.TheVariants.{ParseError};
ghost use Rattle.x_frames.specs.declared.life.Life.TheVariants.{Running};
ghost use Rattle.x_frames.specs.declared.method.Method.TheVariants.{Ask, Initialize};
ghost use Rattle.x_lsp.specs.Answering.{FindsAt, FindsOf, IsAnsweredBy, asked_document};
ghost use Rattle.x_lsp.specs.Saying.{said_by};
ghost use Rattle.x_lsp.specs.States.{GoesBy, GoesBySame, IsAskedOf, IsCancelled, IsInitialized};
ghost use Rattle.x_lsp.specs.States.{IsMisread, IsPassedOver, IsQuestion, IsRefusedAs, LosesAll, Makes};
ghost use Rattle.x_lsp.specs.States.{MakesOf};
ghost use Rattle.x_lsp.specs.States.{fresh, is_running, state_of};

use crate::answer::{Answer, add_header};
use crate::said::{Said, refused};
use serde_json::Value;
use std::alloc::{AllocError, Global};
use x_contents::{Found, answer_about_document};
use x_documents::{Documents, KeptTexts, OpenDocument, Reply, Setting};
use x_frames::{
    ErrorCode, Incoming, Life, Method, PositionQuestion, Question, capabilities_of, classify,
    document_note, is_cancelled, mended_message, misread_note, result_text, uri_in,
};
use x_hash::HashKey;
use x_positions::Encoding;
use x_published::{Client, client_in};
use x_questions::{OpenText, answer_about_place};
use x_text::{Pen, Sink};

/// How long a question is at most that can be cancelled, so that no other message is read twice that takes
/// long to read.
const LONGEST_QUESTION: usize = 65_536;

/// A server of a client.
#[derive(Drop)]
pub struct Server<'k> {
    alloc: Global,
    setting: Setting<'k>,
    life: Life,
    client: Client,
    documents: Documents,
    kept: KeptTexts,
}

impl<'k> Server<'k> {
    /// A server that no client has initialized, which compiles documents by this setting unless the client
    /// asks for another. Whoever writes what the client opens and types must not know the key, by which
    /// tables of the names in it hash.
    pub fn new(
        alloc: Global,
        hash_key: HashKey,
        setting: Setting<'k>,
    ) -> Result<Server<'k>, AllocError>
        ensures { IfOk result (λ server. state_of server ≡ fresh (ground_of setting.entry)) }
    {
        Ok(Server {
            alloc,
            setting,
            life: Life::Fresh,
            client: Client {
                encoding: Encoding::Utf16,
                shows_related: false,
            },
            documents: Documents::new(alloc, hash_key),
            kept: KeptTexts::new(alloc)?,
        })
    }

    /// Whether the client has ended the server, and then, whether it had asked it to shut down.
    pub fn end(&self) -> Option<bool>
        ensures { result ≡ end_of self.now.life }
    {
        self.life.end()
    }

    /// How many documents are open.
    pub(crate) fn open_count(&self) -> usize {
        self.documents.count()
    }

    /// Adds what is said to a message, with its header.
    pub fn add_said<S: Sink>(&self, said: &Said, pen: &mut Pen, sink: &mut S)
        ensures { Adds pen.old (S.state sink.old) pen.new (S.state sink.new)
            (framed_if (said_by said.now)) }
    {
        match said {
            Said::Reply(reply) => self.add_reply(reply, pen, sink),
            Said::Answered(answer) => answer.add_to(pen, sink),
        }
    }

    fn add_reply<S: Sink>(&self, reply: &Reply, pen: &mut Pen, sink: &mut S)
        ensures { Adds pen.old (S.state sink.old) pen.new (S.state sink.new)
            (framed_if (said_of reply.now)) }
    {
        if let Some(text) = self.kept.text_of(reply) {
            add_framed(text, pen, sink);
        }
    }

    /// Does what a message asks for, and answers what is said to it.
    pub fn reply(&mut self, body: &[u8]) -> Said
        ensures said { IsSaid self.old.life body.now (said_by result) self.new.life }
        ensures makes { Makes (state_of self.old) body.now (said_by result) (state_of self.new) }
    {
        let error = match Value::from_slice(self.alloc, body) {
            Ok(message) => return self.reply_to(&message),
            Err(error) => error,
        };
        if error.is_memory() {
            let _ = self.documents.lose_all();
            return Said::Reply(Reply::NoMemoryAnswer);
        }
        self.reply_to_no_json(body)
    }

    /// Answers what is said to a body that is no JSON: but for halves of pairs of surrogates it may be a
    /// notification about a document.
    fn reply_to_no_json(&mut self, body: &[u8]) -> Said
        requires { IsUtf8 body.now → read body.now ≡ None }
        ensures said { IsSaid self.old.life body.now (said_by result) self.new.life }
        ensures makes { Makes (state_of self.old) body.now (said_by result) (state_of self.new) }
    {
        if let Some(message) = mended_message(self.alloc, body) {
            if let Some(reply) = self.miss(&message) {
                return reply;
            }
        }
        self.refuse_no_json()
    }

    /// Refuses a body that is no JSON, which may have been a change of any document.
    fn refuse_no_json(&mut self) -> Said
        ensures said { IsRefused null ParseError (said_by result) }
        ensures life { self.new.life ≡ self.old.life }
        ensures loses { LosesAll (state_of self.old) (state_of self.new) }
    {
        let _lost = self.documents.lose_all();
        refused(self.alloc, &Value::Null, ErrorCode::ParseError)
    }

    /// Takes a message that was misread for a notification which is not understood, if it is one about a
    /// document and the server runs.
    fn miss(&mut self, message: &Value) -> Option<Said>
        ensures misread { IfSome result (λ reply. IsMisread (state_of self.old) (view message.now)
            (said_by reply) (state_of self.new)) }
        ensures none { result ≡ None → self.new ≡ self.old }
    {
        if !is_running(self.life) {
            return None;
        }
        match misread_note(message) {
            Some(note) => Some(self.documents.note(self.client, &self.setting, note).into()),
            None => None,
        }
    }

    /// Refuses a message that was too long to be read, which may have been a change of any document.
    pub(crate) fn refuse_long(&mut self) -> Said
        ensures { IsPassedOver (state_of self.old) (said_by result) (state_of self.new) }
    {
        let _all_lost = self.documents.lose_all();
        refused(self.alloc, &Value::Null, ErrorCode::TooLong)
    }

    /// Refuses a question that a message cancels which is whole in the bytes behind it. There is no reply to
    /// any other message.
    pub(crate) fn refuse_cancelled(&self, body: &[u8], later: &[u8]) -> Option<Said>
        ensures { IfSome result (λ reply. IsCancelled (state_of self.now) body.now later.now
            (said_by reply) (state_of self.now)) }
    {
        if later.is_empty() || body.len() > LONGEST_QUESTION || !is_running(self.life) {
            return None;
        }
        match Value::from_slice(self.alloc, body) {
            Ok(message) => refused_as(self.alloc, &message, later),
            Err(_) => None,
        }
    }

    /// Does what a message asks for, and answers what is said to it.
    fn reply_to(&mut self, message: &Value) -> Said
        ensures said { IsSaidTo self.old.life (asked_by (view message.now)) (said_by result) self.new.life }
        ensures makes { MakesOf (state_of self.old) (asked_by (view message.now))
            (get (codes "params") (view message.now)) (said_by result) (state_of self.new) }
    {
        let params = message.get("params");
        match classify(message) {
            Incoming::Request { id, method } => self.answer_request(id, method, params),
            Incoming::Notification { method } => self.take_note(method, params),
            Incoming::Response => Said::Reply(Reply::Nothing),
            Incoming::Invalid => refused(self.alloc, &Value::Null, ErrorCode::InvalidRequest),
        }
    }

    /// Answers a request, and does what it asks for where the server's life admits it.
    fn answer_request(&mut self, id: &Value, name: &str, params: Option<&Value>) -> Said
        requires { has_float (view id.now) ≡ false }
        ensures said { IsToRequest self.old.life (view id.now) name.now (said_by result) self.new.life }
        ensures documents { self.new.documents ≡ self.old.documents }
        ensures goes { GoesBySame (state_of self.old) (state_of self.new)
            ⊎ IsInitialized (state_of self.old) (option_map (λ p. view p.now) params.entry)
            (state_of self.new) }
        ensures asked { self.old.life ≡ Running → IsAskedOf (view id.now) (method_named name.now)
            (documents_of self.old.documents) (option_map (λ p. view p.now) params.entry)
            (said_by result) }
    {
        match self.life.admit(Method::named(name)) {
            Ok(method) => self.carry_out(id, method, params),
            Err(code) => refused(self.alloc, id, code),
        }
    }

    /// Does what a request asks for, and answers it.
    fn carry_out(&mut self, id: &Value, method: Method, params: Option<&Value>) -> Said
        requires { has_float (view id.now) ≡ false }
        ensures said { IsToMethod self.old.life (view id.now) method (said_by result) self.new.life }
        ensures documents { self.new.documents ≡ self.old.documents }
        ensures goes { GoesBySame (state_of self.old) (state_of self.new)
            ⊎ ((method ≡ Initialize) × (self.new.life ≡ Running)
            × GoesBy (option_map (λ p. view p.now) params.entry) (state_of self.old) (state_of self.new)) }
        ensures asked { (question : Question) → method ≡ Ask question
            → IsAnsweredBy (view id.now) question (asked_document (documents_of self.old.documents)
            (option_map (λ p. view p.now) params.entry)) (option_map (λ p. view p.now) params.entry)
            (said_by result) }
    {
        match self.result_of(method, params) {
            Ok(found) => match Answer::new(self.alloc, id, found) {
                Ok(answer) => {
                    self.go_on(method, params);
                    Said::Answered(answer)
                }
                Err(_) => refused(self.alloc, id, ErrorCode::InternalError),
            },
            Err(code) => refused(self.alloc, id, code),
        }
    }

    /// The result of a request, as JSON.
    fn result_of(&self, method: Method, params: Option<&Value>) -> Result<Found, ErrorCode>
        ensures text { IfOk result (λ found. IsText (found_text found)) }
        ensures code { IfErr result (λ code. is_of_request code ≡ true) }
        ensures asked { (question : Question) → method ≡ Ask question
            → FindsOf question (asked_document (documents_of self.now.documents)
            (option_map (λ p. view p.now) params.entry)) (option_map (λ p. view p.now) params.entry)
            result }
    {
        match method {
            Method::Initialize => match capabilities_of(self.alloc, client_in(params).encoding) {
                Ok(value) => Ok(Found::Text(result_text(self.alloc, &value)?)),
                Err(_) => Err(ErrorCode::InternalError),
            },
            Method::Shutdown => Ok(Found::Text(result_text(self.alloc, &Value::Null)?)),
            Method::Ask(question) => self.asked(question, params),
        }
    }

    /// The result of a question about a document, which must be open, as JSON.
    fn asked(&self, question: Question, params: Option<&Value>) -> Result<Found, ErrorCode>
        ensures text { IfOk result (λ found. IsText (found_text found)) }
        ensures code { IfErr result (λ code. is_of_request code ≡ true) }
        ensures finds { FindsOf question (asked_document (documents_of self.now.documents)
            (option_map (λ p. view p.now) params.entry)) (option_map (λ p. view p.now) params.entry)
            result }
    {
        let Some(uri) = uri_in(params) else {
            return Err(ErrorCode::InvalidParams);
        };
        match self.documents.get(uri) {
            Some(document) => self.asked_of(document, question, params),
            None => Err(ErrorCode::InvalidParams),
        }
    }

    /// The result of a question about an open document, which must be in step, as JSON.
    fn asked_of(
        &self,
        document: &OpenDocument,
        question: Question,
        params: Option<&Value>,
    ) -> Result<Found, ErrorCode>
        ensures text { IfOk result (λ found. IsText (found_text found)) }
        ensures code { IfErr result (λ code. is_of_request code ≡ true) }
        ensures finds { FindsAt question (view_document document.now) (view_document document.now).text
            (option_map (λ p. view p.now) params.entry) result }
    {
        if !document.is_in_step() {
            return Err(ErrorCode::ContentModified);
        }
        match question {
            Question::OfDocument(question) => answer_about_document(
                self.alloc,
                document.encoding(),
                document.shown(),
                &document.compiled().session,
                question,
                params,
            ),
            Question::OfPosition(question) => self.asked_at(document, question, params),
        }
    }

    /// The result of a question about a place in an open document, as JSON.
    fn asked_at(
        &self,
        document: &OpenDocument,
        question: PositionQuestion,
        params: Option<&Value>,
    ) -> Result<Found, ErrorCode>
        ensures text { IfOk result (λ found. IsText (found_text found)) }
        ensures code { IfErr result (λ code. is_of_question code ≡ true) }
    {
        let text = OpenText {
            uri: document.uri(),
            shown: document.shown(),
            compiled: document.compiled(),
        };
        let place = document.place_asked(params);
        let found = answer_about_place(
            self.alloc,
            document.encoding(),
            &text,
            place,
            question,
            params,
        )?;
        Ok(Found::Text(result_text(self.alloc, &found)?))
    }

    /// Goes on with the server's life behind a request that was answered.
    fn go_on(&mut self, method: Method, params: Option<&Value>)
        ensures life { self.new.life ≡ life_behind self.old.life method }
        ensures documents { self.new.documents ≡ self.old.documents }
        ensures same { method ≢ Initialize
            → (self.new.client ≡ self.old.client) × (self.new.setting ≡ self.old.setting) }
        ensures goes { method ≡ Initialize → GoesBy (option_map (λ p. view p.now) params.entry)
            (state_of self.old) (state_of self.new) }
    {
        if method == Method::Initialize {
            self.client = client_in(params);
            self.setting = self.setting.asked(params);
        }
        self.life = self.life.behind(method);
    }

    /// Does what a notification asks for. One that is not known is passed over, and so is each but `exit`
    /// where the server does not run.
    fn take_note(&mut self, name: &str, params: Option<&Value>) -> Said
        ensures note { IsToNotification (said_by result) }
        ensures life { self.new.life ≡ life_noted self.old.life name.now }
        ensures client { self.new.client ≡ self.old.client }
        ensures setting { self.new.setting ≡ self.old.setting }
        ensures notes { MatchBool (is_running self.old.life)
            (Notes self.old.client (ground_of self.old.setting) (documents_of self.old.documents)
            (noted_by name.now (option_map (λ p. view p.now) params.entry)) (said_by result)
            (documents_of self.new.documents))
            ((said_by result ≡ None) × (self.new.documents ≡ self.old.documents)) }
    {
        let serves = self.life == Life::Running;
        self.life = self.life.noted(name);
        if serves {
            let note = document_note(name, params);
            self.documents.note(self.client, &self.setting, note).into()
        } else {
            Said::Reply(Reply::Nothing)
        }
    }
}

/// Whether a server carries out questions.
fn is_running(life: Life) -> bool
    ensures { IsTrue result → life ≡ Running }
{
    life == Life::Running
}

/// Refuses a message that is a question, if one cancels it which is whole in the bytes behind it.
fn refused_as(alloc: Global, message: &Value, later: &[u8]) -> Option<Said>
    ensures { IfSome result
        (λ reply. IsRefusedAs (asked_by (view message.now)) later.now (said_by reply)) }
{
    let Incoming::Request { id, method } = classify(message) else {
        return None;
    };
    if is_question(method) && is_cancelled(alloc, later, id) {
        Some(refused(alloc, id, ErrorCode::RequestCancelled))
    } else {
        None
    }
}

/// Whether a request of this name is a question about a document.
fn is_question(name: &str) -> bool
    ensures { IsTrue result → IsQuestion name.now }
{
    matches!(Method::named(name), Some(Method::Ask(_)))
}

/// Adds a text with its header.
#[tactic(auto, using(x_text::proofs::Adding::two))]
fn add_framed<S: Sink>(text: &[u8], pen: &mut Pen, sink: &mut S)
    ensures { Adds pen.old (S.state sink.old) pen.new (S.state sink.new) (framed text.now) }
{
    add_header(text.len(), pen, sink);
    pen.add(text, sink);
}

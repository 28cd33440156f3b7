//! What a client takes.

ghost use Rattle.std.specs.Prelude.{◌≡◌, option_map};
ghost use Rattle.serde_json.specs.View.{items_view, view};
ghost use Rattle.x_published.specs.Clients.{client_by, client_of, names_utf8, offered_in, offers_utf8};
ghost use Rattle.x_published.specs.Clients.{related_in};

use serde_json::Value;
use x_frames::member;
use x_positions::Encoding;

/// What a client takes.
#[derive(Clone, Copy, Debug, PartialEq, Eq)]
pub struct Client {
    /// How it counts characters.
    pub encoding: Encoding,
    /// Whether it shows another place that matters to a fault.
    pub shows_related: bool,
}

/// What a client says of itself as it initializes the server (LSP 3.17, `InitializeParams`).
pub fn client_in(params: Option<&Value>) -> Client
    ensures { result ≡ client_of (option_map (λ p. view p.now) params.entry) }
{
    client_by(member(params, "capabilities"))
}

/// What a client with these capabilities takes.
fn client_by(capabilities: Option<&Value>) -> Client
    ensures { result ≡ client_by (option_map (λ c. view c.now) capabilities.entry) }
{
    let encoding = match offered_in(capabilities) {
        Some(offers) if offers_utf8(offers) => Encoding::Utf8,
        _ => Encoding::Utf16,
    };
    Client {
        encoding,
        shows_related: related_in(capabilities).unwrap_or(false),
    }
}

/// The encodings that a client offers.
fn offered_in(capabilities: Option<&Value>) -> Option<&Vec<Value>>
    ensures { option_map (λ offers. items_view offers.now.items) result
        ≡ offered_in (option_map (λ c. view c.now) capabilities.entry) }
{
    member(member(capabilities, "general"), "positionEncodings")?.as_array()
}

/// Whether one of the encodings that are offered is UTF-8.
fn offers_utf8(offers: &Vec<Value>) -> bool
    ensures { result ≡ offers_utf8 (items_view offers.now.items) }
{
    for offer in offers {
        if names_utf8(offer.as_str()) {
            return true;
        }
    }
    false
}

fn names_utf8(name: Option<&str>) -> bool
    ensures { result ≡ names_utf8 (option_map (λ n. n.now) name.entry) }
{
    match name {
        Some(name) => name == "utf-8",
        None => false,
    }
}

/// Whether a client says that it shows another place that matters to a fault.
fn related_in(capabilities: Option<&Value>) -> Option<bool>
    ensures { result ≡ related_in (option_map (λ c. view c.now) capabilities.entry) }
{
    let documents = member(capabilities, "textDocument");
    member(
        member(documents, "publishDiagnostics"),
        "relatedInformation",
    )?
    .as_bool()
}

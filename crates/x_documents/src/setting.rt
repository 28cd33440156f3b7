//! How the documents of a client are compiled, how many of their faults it is shown, and of what it is
//! warned.

ghost use Rattle.std.specs.Prelude.{◌≡◌, option_map};
ghost use Rattle.serde_json.specs.View.{view};
ghost use Rattle.x_documents.specs.Grounds.{asked_on, blanks_of, flag_of, ground_of, most_of};

use serde_json::Value;
use x_frames::member;
use x_prelude::FromC;

/// How documents are compiled.
#[derive(Clone, Copy, Debug)]
pub struct Setting<'k> {
    /// The text of known files, which stands before each document. It has no fault.
    pub files: &'k [u8],
    /// Which names of C a document may use without declaring them.
    pub from_c: FromC,
    /// Whether the lines of cpp are blanked, and are not faults.
    pub blanks: bool,
    /// Whether names that clash in C are published.
    pub warns: bool,
    /// How many faults of a document are published at most.
    pub most: usize,
}

impl<'k> Setting<'k> {
    /// The setting that a client asks for as it initializes the server (LSP 3.17, `initializationOptions`):
    /// what it does not name stays.
    pub fn asked(self, params: Option<&Value>) -> Setting<'k>
        ensures { ground_of result
            ≡ asked_on (ground_of self.entry) (option_map (λ p. view p.now) params.entry) }
    {
        let options = member(params, "initializationOptions");
        Setting {
            files: self.files,
            from_c: FromC {
                types: flag(options, "cTypes").unwrap_or(self.from_c.types),
                foreign: flag(options, "foreign").unwrap_or(self.from_c.foreign),
            },
            blanks: blanks(options).unwrap_or(self.blanks),
            warns: flag(options, "warnings").unwrap_or(self.warns),
            most: most(options).unwrap_or(self.most),
        }
    }
}

/// What an option is set to.
fn flag(options: Option<&Value>, name: &str) -> Option<bool>
    ensures { result ≡ flag_of name.now (option_map (λ o. view o.now) options.entry) }
{
    member(options, name)?.as_bool()
}

/// Whether the lines of cpp are to be blanked.
fn blanks(options: Option<&Value>) -> Option<bool>
    ensures { result ≡ blanks_of (option_map (λ o. view o.now) options.entry) }
{
    let word = member(options, "directives")?.as_str()?;
    if word == "blank" {
        Some(true)
    } else if word == "fault" {
        Some(false)
    } else {
        None
    }
}

/// How many faults are to be published at most: one or more.
fn most(options: Option<&Value>) -> Option<usize>
    ensures { result ≡ most_of (option_map (λ o. view o.now) options.entry) }
{
    let most = member(options, "most")?.as_u64()? as usize;
    if most == 0 { None } else { Some(most) }
}

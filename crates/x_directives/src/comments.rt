//! Comments that go on over lines.
ghost use Rattle.std.specs.Prelude.{◌≡◌, ◌||◌};
ghost use Rattle.x_lex.specs.Bytes.{is_space};
ghost use Rattle.x_directives.specs.Comments.{turns, commented_behind, is_bare};

use memchr::memchr;

/// Whether a comment goes on behind the bytes, where `commented` says whether one goes on before them.
pub(crate) fn commented_behind(commented: bool, bytes: &[u8]) -> bool
    ensures { result ≡ commented_behind commented bytes.now }
{
    if memchr(b'/', bytes).is_none() {
        return commented;
    }
    let mut now = commented;
    let mut rest = bytes;
    'pairs: while let [a, b, ..] = rest {
        if turns(now, *a, *b) {
            now = !now;
            rest = &rest[2..];
        } else {
            rest = &rest[1..];
        }
    }
    now
}

/// Whether nothing but white space and comments is there.
pub(crate) fn is_bare(commented: bool, bytes: &[u8]) -> bool
    ensures { result ≡ is_bare commented bytes.now }
{
    let mut now = commented;
    let mut rest = bytes;
    'pairs: while let [a, b, ..] = rest {
        if turns(now, *a, *b) {
            now = !now;
            rest = &rest[2..];
        } else if is_quiet(now, *a) {
            rest = &rest[1..];
        } else {
            return false;
        }
    }
    match rest {
        [last, ..] => is_quiet(now, *last),
        [] => true,
    }
}

/// Whether the two bytes end a comment that goes on, or begin one.
#[tactic(auto, unfolding(crate::specs::Comments::turns))]
fn turns(commented: bool, a: u8, b: u8) -> bool
    ensures { result ≡ turns commented a b }
{
    if commented {
        a == b'*' && b == b'/'
    } else {
        a == b'/' && b == b'*'
    }
}

/// Whether the byte is of a comment, or white space.
fn is_quiet(commented: bool, byte: u8) -> bool
    ensures { result ≡ (commented || is_space byte) }
{
    commented || matches!(byte, 9..=13 | b' ')
}

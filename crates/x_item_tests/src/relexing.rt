//! What an edit does to tokens.
ghost use Rattle.std.specs.Prelude.{◌≤◌};
ghost use Rattle.x_lex.specs.Tiling.{AreTokens};

use refusals::{ALL, MOST_TURNS, begin, end};
use std::alloc::Global;
use std::process::Abort;
use std::test::Fail;
use x_lex::{Kind, Patch, Tokens, lex, relex};
use x_text::{Edit, Meter, Source};

/// The text `x;`, a line feed, `%y`; and without the line feed.
const BEFORE: [(Kind, usize, usize); 4] = [
    (Kind::Name, 0, 1),
    (Kind::Punct, 1, 2),
    (Kind::Space, 2, 3),
    (Kind::Percent, 3, 5),
];

const AFTER: [(Kind, usize, usize); 4] = [
    (Kind::Name, 0, 1),
    (Kind::Punct, 1, 2),
    (Kind::BadByte, 2, 3),
    (Kind::Name, 3, 4),
];

fn expect_tokens(rt: &impl Abort, tokens: &Tokens, places: &[(Kind, usize, usize)]) {
    assert!(rt; tokens.len() == places.len());
    for (index, place) in places.iter().enumerate() {
        assert!(rt; tokens.get(index) == Some(*place));
    }
    assert!(rt; tokens.get(places.len()) == None);
}

/// Checks the patch: the token at the edit goes too, since what follows it decides its end.
fn expect_patch(rt: &impl Abort, patch: &Patch) {
    assert!(rt; (patch.at(), patch.removed(), patch.len()) == (1, 3, 3));
    assert!(rt; patch.get(0) == Some((Kind::Punct, 1)));
    assert!(rt; patch.get(1) == Some((Kind::BadByte, 1)));
    assert!(rt; patch.get(2) == Some((Kind::Name, 1)));
    assert!(rt; patch.get(3) == None);
}

/// Follows the edit with allocations refused. It tells whether one was, and leaves all as before then.
fn follow(
    rt: &impl Abort,
    alloc: Global,
    tokens: &mut Tokens,
    old: &Source,
    turn: usize,
) -> Result<bool, Fail>
    requires tokens { AreTokens old.now tokens.old.list }
    requires turn { turn ≤ 20000 }
{
    let edit = Edit {
        start: 2,
        end: 3,
        insert: b"",
    };
    let new = old.edited(alloc, &edit)?;
    begin(alloc, turn)?;
    let patch = relex(alloc, tokens, old, &edit, &new, &mut Meter::new());
    let Ok(patch) = patch else {
        assert!(rt; end(alloc));
        return Ok(true);
    };
    let room = tokens.reserve(&patch);
    let refused = end(alloc);
    if room.is_err() {
        assert!(rt; refused);
        return Ok(true);
    }
    begin(alloc, ALL)?;
    expect_tokens(rt, tokens, &BEFORE);
    expect_patch(rt, &patch);
    assert!(rt; tokens.put(patch) == 0);
    expect_tokens(rt, tokens, &AFTER);
    assert!(rt; !end(alloc));
    Ok(refused)
}

/// Each allocation of an edit refused in turn. Then the tokens are as before; and putting a patch in place,
/// in the room that is there, takes no memory.
#[test]
fn refused_edit(rt: HostRuntime) -> Result<(), Fail> {
    let old = Source::from_bytes(rt.alloc(), b"x;\n%y")?;
    for turn in 0..MOST_TURNS {
        let mut tokens = lex(rt.alloc(), &old, &mut Meter::new())?;
        assert!(rt; tokens.iter_from(tokens.len(), &old).count() == 0);
        let refused = follow(&rt, rt.alloc(), &mut tokens, &old, turn)?;
        if !refused {
            println!(rt; "turns: {turn}")?;
            return Ok(());
        }
        let is_done = tokens.get(2) == Some((Kind::BadByte, 2, 3));
        expect_tokens(&rt, &tokens, if is_done { &AFTER } else { &BEFORE });
    }
    panic!(rt; "an edit never ends")
}

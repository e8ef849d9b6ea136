// One mention: a token, which starts at a place of the rule bytes.
ghost use Rattle.std.specs.Prelude.{◌≡◌, ◌+◌, ◌≤◌, length};
ghost use Rattle.attributelines.specs.AttributeLines.{name_in, plain_mention, mention};

use crate::{Span, State};
use bytestrings::first_place;

// The attribute that a mention names, and the state that it gives.
#[derive(Clone, Copy)]
pub struct Mention<'a> {
    pub name: &'a [u8],
    pub state: State,
}

// The bytes before the first `=`, all where there is none.
fn name_in(token: &[u8]) -> &[u8]
    ensures { result.now ≡ name_in token.now }
{
    match first_place(token, b'=') {
        Some(n) => &token[..n],
        None => token,
    }
}

// The mention of a token that begins with no sign: `name` or `name=v`.
fn plain_mention(token: &[u8], at: usize) -> Mention<'_>
    requires { at + length token.now ≤ usize.MAX }
    ensures name { result.name.now ≡ (plain_mention at token.now).name }
    ensures state { result.state ≡ (plain_mention at token.now).state }
{
    match first_place(token, b'=') {
        Some(n) => Mention {
            name: &token[..n],
            state: State::Value(Span {
                start: at + n + 1,
                length: token.len() - (n + 1),
            }),
        },
        None => Mention {
            name: token,
            state: State::Set,
        },
    }
}

// The mention that a token is. After `-` or `!`, an `=v` is ignored.
pub fn read_mention(token: &[u8], at: usize) -> Mention<'_>
    requires { at + length token.now ≤ usize.MAX }
    ensures name { result.name.now ≡ (mention at token.now).name }
    ensures state { result.state ≡ (mention at token.now).state }
{
    match token {
        [b'-', rest @ ..] => Mention {
            name: name_in(rest),
            state: State::Unset,
        },
        [b'!', rest @ ..] => Mention {
            name: name_in(rest),
            state: State::Unspecified,
        },
        _ => plain_mention(token, at),
    }
}

// Refusal 1: what a path must not be. It is asked of a path alone, whatever rules are lent with it. For a user: docs/RULES.md, "Limits and refusals".
#![tactic(auto)]

ghost use Rattle.std.specs.Prelude.{◌≡◌, ◌↔◌, true};
ghost use Rattle.std.specs.Char.{is_ascii_control};
ghost use Rattle.paths.specs.Paths.{BadPath};
ghost use Rattle.paths.specs.inner.Scans.{bad_here, bad_later};

use bytestrings::anybyte::{ByteTest, any_byte};
use bytestrings::first_place;

const PATH_LIMIT: usize = 4096;

// The test for a control byte: one below 32, or 127.
struct Control;

impl ByteTest for Control {
    ghost holds = { is_ascii_control };

    fn test(b: u8) -> bool {
        b.is_ascii_control()
    }
}

// Whether a component that starts with these bytes is empty, `.` or `..`.
#[tactic(auto, unfolding(crate::specs::inner::Scans::bad_here, crate::specs::inner::Scans::dots_here, crate::specs::inner::Scans::ends_here))]
fn bad_here(rest: &[u8]) -> bool
    ensures { result ≡ bad_here rest.now }
{
    matches!(
        rest,
        [] | [b'/', ..] | [b'.'] | [b'.', b'/', ..] | [b'.', b'.'] | [b'.', b'.', b'/', ..]
    )
}

// Whether a component that starts after one of the bytes is.
#[tactic(auto, using(crate::proofs::ComponentLaws::slash_within, crate::proofs::ComponentLaws::after_slash, crate::proofs::ComponentLaws::no_slash))]
fn bad_later(path: &[u8]) -> bool
    ensures { result ≡ bad_later path.now }
{
    let mut rest = path;
    while let Some(slash) = first_place(rest, b'/') {
        rest = &rest[slash + 1..];
        if bad_here(rest) {
            return true;
        }
    }
    false
}

// Whether the path is refused. Byte 0 is a control byte; a `/` first, last or doubled is an empty component.
#[tactic(auto, using(crate::proofs::ComponentLaws::path_long, crate::proofs::ComponentLaws::path_control, crate::proofs::ComponentLaws::path_start, crate::proofs::ComponentLaws::path_rest))]
pub fn path_bad(path: &[u8]) -> bool
    ensures { (result ≡ true) ↔ BadPath path.now }
{
    if PATH_LIMIT < path.len() {
        return true;
    }
    if any_byte::<Control>(path) {
        return true;
    }
    bad_here(path) || bad_later(path)
}

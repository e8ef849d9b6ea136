// The program's arguments.
ghost use Rattle.std.specs.Prelude.{◌≤◌, length, IfSome, IfOk};
ghost use Rattle.whichline.specs.Bounds.{Named};

use crate::messages;
use crate::messages::Said;
use std::env::{Env, FillError};

// What is asked of each path: the ignore question, or the attribute question for a name.
#[derive(Clone, Copy)]
pub enum Question<'a> {
    Ignore,
    Attribute(&'a [u8]),
}

// How many arguments there are, the program's name among them. The last number is no failure: a proved loop ends, and no program has so many.
pub fn count(rt: HostRuntime) -> usize {
    let mut word = io::buffer();
    for i in 0..usize::MAX {
        if let Err(FillError::NotPresent) = rt.arg(i, &mut word) {
            return i;
        }
    }
    usize::MAX
}

// Argument `i`, for which there is room in `word`, or none where there is no such argument or no room for it.
pub fn get<'a>(rt: HostRuntime, i: usize, word: &'a mut [u8]) -> Option<&'a [u8]>
    ensures { IfSome result (λ argument. length argument.now ≤ length word.old) }
{
    let n = rt.arg(i, word).ok()?;
    Some(&word[..n])
}

// Whether argument `i` is these bytes. The arguments come from the outside, so no contract can say what this answers.
pub fn is(rt: HostRuntime, i: usize, bytes: &[u8]) -> bool {
    let mut word = io::buffer();
    get(rt, i, &mut word).is_some_and(|argument| argument == bytes)
}

// Whether argument `i` is an option, which is no name, directory or file where one of these is wanted. This too is the outside's to say.
pub fn is_option(rt: HostRuntime, i: usize) -> bool {
    is(rt, i, b"--fold") || is(rt, i, b"--in")
}

// Says how it is asked.
fn not_asked(rt: HostRuntime) -> Said {
    messages::wrong(
        rt,
        b"say `ignore`, or `attribute` and its name, and then the rule files",
    )
}

// What is asked; there is room in `name` for an attribute's name. Of one that is too long for that the front will do: it is refused.
pub fn what_is_asked<'a>(rt: HostRuntime, name: &'a mut [u8]) -> Result<Question<'a>, Said>
    ensures { IfOk result (λ question. Named question name.old) }
{
    if is(rt, 1, b"ignore") {
        return Ok(Question::Ignore);
    }
    if !is(rt, 1, b"attribute") || is_option(rt, 2) {
        return Err(not_asked(rt));
    }
    match rt.arg(2, name) {
        Ok(n) => Ok(Question::Attribute(&name[..n])),
        Err(FillError::TooLong) => Ok(Question::Attribute(name)),
        Err(FillError::NotPresent) => Err(not_asked(rt)),
    }
}

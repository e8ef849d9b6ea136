// The paths of a listing, one a line, read piece by piece from standard input.
ghost use Rattle.std.specs.Prelude.{◌≤◌, ◌<◌, ◌≡◌, length, IfOk, MatchOption, false, cond};
ghost use Rattle.entries.specs.Entries.{without_last_slash};
ghost use Rattle.whichline.specs.Listing.{nothing_read, line_end, found_line, ended as ended_line, unended as unended_line, looked, holds_line, EntryOf};
ghost use Rattle.whichline.specs.Places.{after_entry};
ghost use Rattle.whichline.specs.Bounds.{AtFront};

use crate::fields::Out;
use crate::messages::Said;
use crate::{given, messages, reading};
use bytestrings::find_byte;

// How much of a line is kept: more than any path that is taken has. What a longer line has behind it is passed over.
const KEPT: usize = 8192;

// What is read and not yet answered: from `start` up to `have`. Whether the rest of a line that was too long is being passed
// over, and whether the input is at its end.
#[derive(Clone, Copy)]
pub struct Unread {
    pub start: usize,
    pub have: usize,
    pub passing: bool,
    pub over: bool,
}

// A line of the listing: from `start` up to `end`, whether that is only its front, and what is unread after it.
#[derive(Clone, Copy)]
pub struct Line {
    pub start: usize,
    pub end: usize,
    pub cut: bool,
    pub after: Unread,
}

// A path as the listing has it: a whole line, or the front of one that is too long.
#[derive(Clone, Copy)]
pub struct Entry<'a> {
    pub line: &'a [u8],
    pub cut: bool,
}

// What the unread bytes come to: a line, the end, or nothing yet: then with more bytes, or just with these.
#[derive(Clone, Copy)]
pub enum Found {
    Next(Line),
    Over,
    More(Unread),
    Again(Unread),
}

// Where the first unread line ends, if it ends in what is read; else where that ends.
#[tactic(auto, unfolding(crate::specs::Listing::line_end))]
fn line_end(buf: &[u8], start: usize, have: usize) -> usize
    ensures { result ≡ line_end buf.now start have }
{
    if have > buf.len() || start > have {
        return have;
    }
    find_byte(&buf[..have], start, b'\n')
}

// A line, or its front if it is too long.
#[tactic(auto, unfolding(crate::specs::Listing::found_line))]
fn found_line(start: usize, end: usize, after: Unread) -> Found
    ensures { result ≡ found_line start end after }
{
    if end < start {
        return Found::Over;
    }
    let cut = end - start > KEPT;
    Found::Next(Line {
        start,
        end: if cut { start + KEPT } else { end },
        cut,
        after,
    })
}

// Moves the unread bytes to the front, and answers how many there are.
fn move_front(buf: &mut [u8], start: usize, have: usize) -> usize
    ensures { result ≤ length buf.new }
{
    if have > buf.len() || start > have {
        return 0;
    }
    buf.copy_within(start..have, 0);
    have - start
}

impl Line {
    pub fn entry(self, input: &[u8]) -> Option<Entry>
        ensures { MatchOption result (holds_line input.now self ≡ false) (λ entry. EntryOf input.now self entry) }
    {
        let line = input.get(self.start..self.end)?;
        Some(Entry {
            line,
            cut: self.cut,
        })
    }
}

impl<'a> Entry<'a> {
    // The path: without its last slash, if the line is whole.
    pub fn path(self) -> &'a [u8]
        ensures { result.now ≡ cond self.entry.cut self.entry.line.now (without_last_slash self.entry.line.now) }
    {
        if self.cut {
            return self.line;
        }
        given::without_slash(self.line)
    }

    // Puts the path as the listing has it; of a line that is too long, its front and three dots.
    pub fn put(self, out: &mut Out)
        ensures { out.new ≡ after_entry out.old self.entry }
    {
        out.put_field(self.line);
        if self.cut {
            out.put(b"...");
        }
    }
}

impl Unread {
    // Nothing is read yet.
    pub fn at_start() -> Unread
        ensures { result ≡ nothing_read }
    {
        Unread {
            start: 0,
            have: 0,
            passing: false,
            over: false,
        }
    }

    // The line whose newline stands at `end`, unless it is the rest of one that was too long.
    #[tactic(auto, unfolding(crate::specs::Listing::ended))]
    fn ended(self, end: usize) -> Found
        requires { end < self.have }
        ensures { result ≡ ended_line self end }
    {
        let after = Unread {
            start: end + 1,
            passing: false,
            ..self
        };
        if self.passing {
            return Found::Again(after);
        }
        found_line(self.start, end, after)
    }

    // What unread bytes without a newline come to. At the end of the input they are the last line, if there are any.
    #[tactic(auto, unfolding(crate::specs::Listing::unended))]
    fn unended(self) -> Found
        ensures { result ≡ unended_line self }
    {
        let rest = Unread {
            start: self.have,
            passing: true,
            ..self
        };
        if self.start >= self.have {
            return if self.over {
                Found::Over
            } else {
                Found::More(self)
            };
        }
        if self.passing {
            return if self.over {
                Found::Over
            } else {
                Found::More(rest)
            };
        }
        if self.have - self.start > KEPT || self.over {
            return found_line(self.start, self.have, rest);
        }
        Found::More(self)
    }

    // What the unread bytes come to.
    #[tactic(auto, unfolding(crate::specs::Listing::looked))]
    pub fn look(self, buf: &[u8]) -> Found
        ensures { result ≡ looked buf.now self }
    {
        let end = line_end(buf, self.start, self.have);
        if end < self.have {
            return self.ended(end);
        }
        self.unended()
    }

    // Reads more behind the unread bytes. There is room: no more than a line's front is kept.
    pub fn read_more(self, rt: HostRuntime, buf: &mut [u8]) -> Result<Unread, Said>
        ensures { IfOk result (λ unread. AtFront unread buf.new) }
    {
        let have = move_front(buf, self.start, self.have);
        if have >= buf.len() {
            return Err(messages::about(rt, b"standard input", b"no room to read more"));
        }
        let n = reading::read_some(rt, &mut rt.stdin(), b"standard input", &mut buf[have..])?;
        Ok(Unread {
            start: 0,
            have: have + n,
            over: n == 0,
            ..self
        })
    }
}

// The star run at the start of a pattern: of which kind it is, and what it leaves to be matched.
ghost use Rattle.std.specs.Prelude.{◌≡◌, ◌<◌, length, get_or};
ghost use Rattle.engine.specs.inner.Outcomes.{Leads};
ghost use Rattle.bytestrings.specs.Text.{char};

use patterns::Mode;
use patterns::runs::{run_crosses, star_count};

// A run within a component, of so many stars; a run that takes all that is left; or one that goes to after a `/`, with the number of bytes up
// to what follows that slash, and whether it may take nothing.
#[derive(Clone, Copy, Debug, PartialEq)]
pub enum RunKind {
    Within(usize),
    All,
    ToSlash(usize, bool),
}

// Of which kind the run at the start of p is. `after`: p is the whole pattern, or follows a byte `/`.
pub fn classify_run(p: &[u8], m: Mode, after: bool) -> RunKind
    requires { (0 < length p.now) × (get_or p.now 0 0 ≡ char "*") }
    ensures { Leads m after p.now result }
{
    let n = star_count(p);
    let rest = &p[n..];
    if !m.path || !run_crosses(after, n, rest) {
        return RunKind::Within(n);
    }
    match rest {
        [] => RunKind::All,
        [b'/', ..] => RunKind::ToSlash(n + 1, true),
        _ => RunKind::ToSlash(n + 2, false),
    }
}

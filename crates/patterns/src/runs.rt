// Star runs: how long they are, and whether they cross.
ghost use Rattle.std.specs.Prelude.{◌≡◌};
ghost use Rattle.patterns.specs.Patterns.{stars, starts_slash, component_ends, crosses};

// How many stars stand at the front of p.
pub fn star_count(p: &[u8]) -> usize
    ensures { result ≡ stars p.now }
{
    p.iter().position(|c| *c != b'*').unwrap_or(p.len())
}

// Whether an unescaped `/` is next.
#[tactic(auto, unfolding(crate::specs::Patterns::starts_slash))]
pub fn starts_slash(p: &[u8]) -> bool
    ensures { result ≡ starts_slash p.now }
{
    p.first() == Some(&b'/')
}

// Whether the end, `/` or `\/` is next.
#[tactic(auto, unfolding(crate::specs::Patterns::component_ends, crate::specs::Patterns::starts_slash))]
pub fn component_ends(p: &[u8]) -> bool
    ensures { result ≡ component_ends p.now }
{
    match p {
        [] | [b'/', ..] => true,
        [b'\\', rest @ ..] => starts_slash(rest),
        _ => false,
    }
}

// Whether a run of n stars crosses, with p after it. `after`: it starts the pattern, or follows a byte `/`.
#[tactic(auto, unfolding(crate::specs::Patterns::crosses))]
pub fn run_crosses(after: bool, n: usize, p: &[u8]) -> bool
    ensures { result ≡ crosses after n p.now }
{
    after && n >= 2 && component_ends(p)
}

// Whether a test holds of one of some bytes: refusals asks it of byte 0, paths of a control byte.
ghost use Rattle.std.specs.Prelude.{ℕ, ◌≡◌, ◌+◌, ◌≤◌, Bool, length};
ghost use Rattle.std.specs.List.{list_any};

// A test of a byte.
pub trait ByteTest {
    ghost holds: { ℕ → Bool };

    fn test(b: u8) -> bool
        ensures { result ≡ holds b };
}

// Whether it holds of one of the bytes. All are read, so that the compiler can take several at a time.
#[tactic(auto, using(crate::proofs::AnyLaws::any_more))]
fn any_of_all<T: ByteTest>(bytes: &[u8]) -> bool
    ensures { result ≡ list_any T.holds bytes.now }
{
    let mut found = false;
    for b in bytes {
        found |= T::test(*b);
    }
    found
}

// The same of n to 2n bytes, by the first n and the last n, which may overlap: the compiler takes a part of fixed size at once.
fn any_of_two<T: ByteTest, const N: usize>(bytes: &[u8]) -> bool
    requires { (N ≤ length bytes.now) × (length bytes.now ≤ N + N) }
    ensures { result ≡ list_any T.holds bytes.now }
{
    any_of_all::<T>(&bytes[..N]) || any_of_all::<T>(&bytes[bytes.len() - N..])
}

// The same of any number of bytes. Up to 3 stand apart from many, since each gets a loop of its own so.
pub fn any_byte<T: ByteTest>(bytes: &[u8]) -> bool
    ensures { result ≡ list_any T.holds bytes.now }
{
    match bytes.len() {
        0..=3 => any_of_all::<T>(bytes),
        4..=8 => any_of_two::<T, 4>(bytes),
        9..=16 => any_of_two::<T, 8>(bytes),
        17..=32 => any_of_two::<T, 16>(bytes),
        33..=64 => any_of_two::<T, 32>(bytes),
        _ => any_of_all::<T>(bytes),
    }
}

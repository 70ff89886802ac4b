// Two tests in one, and a set that gets a member if a test holds.
ghost use Rattle.std.specs.Prelude.{false, cond, ◌&&◌, ◌≡◌, ◌<◌};
ghost use Rattle.sets.specs.Set.{has as in_set, insert};

// Whether k is in one set and q in the other.
pub fn both(word: u32, k: usize, rest: u32, q: usize) -> bool
    ensures { result ≡ (in_set k word && in_set q rest) }
{
    if packed::contains(word, k) {
        packed::contains(rest, q)
    } else {
        false
    }
}

// The set v, with q in it if the test holds.
pub fn with_if(v: u32, q: usize, test: bool) -> u32
    requires { q < 32 }
    ensures { result ≡ cond test (insert q v) v }
{
    if test { sets::with(v, q) } else { v }
}

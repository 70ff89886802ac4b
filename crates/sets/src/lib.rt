// Sets of nonterminals 0..31, each a u32 whose bit k says whether k is in the set; and sets of 0..63. The project has no other shifts
// and masks.
#![tactic(auto)]

pub mod wide;

ghost use Rattle.std.specs.Prelude.{true, ◌≢◌, ◌≡◌, ◌<◌};
ghost use Rattle.sets.specs.Set.{has as in_set, insert};
ghost use Rattle.sets.specs.Pairs.{Common, Less, LeastMember, Without};

// Whether k is in the set w.
pub fn has(w: u32, k: usize) -> bool
    requires { k < 32 }
    ensures { result ≡ in_set k w }
{
    (w >> k) & 1 == 1
}

// The set w with k in it.
pub fn with(w: u32, k: usize) -> u32
    requires { k < 32 }
    ensures { result ≡ insert k w }
{
    w | (1 << k)
}

// What is in both sets.
pub fn common(v: u32, w: u32) -> u32
    ensures { Common v w result }
{
    v & w
}

// What is in the first set, and not in the second.
pub fn less(v: u32, w: u32) -> u32
    ensures { Less v w result }
{
    v ^ (v & w)
}

// The least member of a set that is not empty.
pub fn lowest(w: u32) -> usize
    requires { w ≢ 0 }
    ensures { LeastMember 32 w result }
{
    u32::trailing_zeros(w) as usize
}

// The set without its member k.
pub fn without(w: u32, k: usize) -> u32
    requires { (k < 32) × (in_set k w ≡ true) }
    ensures { Without k w result }
{
    w - (1 << k)
}

// Sets of the numbers 0..63, each a u64 whose bit k says whether k is in the set. They have functions of their own: a trait over u32 and u64
// would write each of these bodies twice as well, since std has none over both widths, and would add the trait and its laws.
ghost use Rattle.std.specs.Prelude.{true, ◌≡◌, ◌<◌};
ghost use Rattle.sets.specs.Set.{has as in_set, insert};
ghost use Rattle.sets.specs.Pairs.{Common, Union, Less, FirstMember, Meeting, Without};

// Whether k is in the set w.
pub fn has(w: u64, k: usize) -> bool
    requires { k < 64 }
    ensures { result ≡ in_set k w }
{
    (w >> k) & 1 == 1
}

// The set w with k in it.
pub fn with(w: u64, k: usize) -> u64
    requires { k < 64 }
    ensures { result ≡ insert k w }
{
    w | (1 << k)
}

// Whether the two sets have a member in common.
pub fn meets(v: u64, w: u64) -> bool
    ensures { Meeting 64 v w result }
{
    v & w != 0
}

// What is in both sets.
pub fn common(v: u64, w: u64) -> u64
    ensures { Common v w result }
{
    v & w
}

// What is in one of the sets.
pub fn union(v: u64, w: u64) -> u64
    ensures { Union v w result }
{
    v | w
}

// What is in the first set, and not in the second.
pub fn less(v: u64, w: u64) -> u64
    ensures { Less v w result }
{
    v ^ (v & w)
}

// The least member of a set, or 64 if it has none.
pub fn first(w: u64) -> usize
    ensures { FirstMember 64 w result }
{
    u64::trailing_zeros(w) as usize
}

// The set without its member k.
pub fn without(w: u64, k: usize) -> u64
    requires { (k < 64) × (in_set k w ≡ true) }
    ensures { Without k w result }
{
    w - (1 << k)
}

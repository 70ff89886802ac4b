// The capped sum and the minimum of two numbers of nodes.
ghost use Rattle.std.specs.Prelude.{◌≡◌, ◌+◌, min};
ghost use Rattle.sizes.specs.Sizes.{too_many};

// One more than the nodes of any derivation, as a number of the tables. It means none.
pub const TOO_MANY: u16 = sizes::TOO_MANY as u16;

// The sum of two numbers of nodes, or 513 if that is less.
pub fn capped(a: u16, b: u16) -> u16
    ensures { result ≡ min (a + b) too_many }
{
    a.saturating_add(b).min(TOO_MANY)
}

// The smaller of two numbers.
pub fn lower(a: u16, b: u16) -> u16
    ensures { result ≡ min a b }
{
    a.min(b)
}

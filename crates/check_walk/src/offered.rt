// The numbers of an offered derivation e. Node i has two: how many bytes it covers, at 2 i, and its rule, at 2 i + 1.
ghost use Rattle.std.specs.Prelude.{◌≡◌, ◌*◌, ◌+◌, ◌<◌, min, length, get_or};
ghost use Rattle.sizes.specs.Sizes.{max_rules, max_nodes};

// A number of an offered derivation.
pub fn number(e: &[u16], i: usize) -> usize
    requires { i < length e.now }
    ensures { (result ≡ get_or e.now i 0) × (result < 65536) }
{
    usize::from(e[i])
}

// The rule of node i, or NO_RULE if no rule has that number. It is a number: `words_write`, whose rows hold only rules, would unwrap an
// Option at once.
pub fn rule_number(e: &[u16], i: usize) -> usize
    requires { (2 * i + 1 < length e.now) × (i < max_nodes) }
    ensures { result ≡ min (get_or e.now (2 * i + 1) 0) max_rules }
{
    let r = number(e, 2 * i + 1);
    if r < sizes::MAX_RULES {
        r
    } else {
        sizes::NO_RULE
    }
}

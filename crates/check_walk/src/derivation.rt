// Whether an offered row of numbers is a derivation of an input. The walk goes over the whole row and the whole input.
ghost use Rattle.std.specs.Prelude.{◌≡◌};
ghost use Rattle.cfg.specs.Listing.{L};
ghost use Rattle.packed.specs.Packed.{cfg_in};
ghost use Rattle.results.specs.Check.{listed};

use super::walk::node;
use packed::Packed;

// Whether the offered derivation is one of w.
pub fn is_derivation(p: &Packed, start: usize, w: &[u8], e: &[u16]) -> bool
    ensures { result ≡ listed e.now (L (cfg_in start p.now) w.now) }
{
    let m = e.len();
    if m > sizes::OUTPUT {
        return false;
    }
    if m % 2 == 1 {
        return false;
    }
    let n = m / 2;
    let cover = w.len();
    node(p, w, e, n, cover, 0, start, 0, 0, cover) == Some(n)
}

// Whether two derivations are the same build: the rules of their nodes that cover something are the same, in preorder.
ghost use Rattle.std.specs.Prelude.{◌≡◌};
ghost use Rattle.results.specs.Measure.{same_built};
ghost use Rattle.checker.specs.Build.{NextUsed};

// The first node from i on that covers something. If there is none, a number past the last node.
fn next_used(e: &[u16], i: usize) -> usize
    ensures { NextUsed e.now i result }
{
    let n = e.len() / 2;
    for r in i..n {
        if e[2 * r] != 0 {
            return r;
        }
    }
    i.max(n)
}

// Whether the nodes that cover something have the same rules, one by one.
pub fn same_rules(a: &[u16], b: &[u16]) -> bool
    ensures { result ≡ same_built a.now b.now }
{
    let n = a.len() / 2;
    let m = b.len() / 2;
    let mut i = next_used(a, 0);
    let mut j = next_used(b, 0);
    while i < n {
        if j >= m {
            return false;
        }
        if a[2 * i + 1] != b[2 * j + 1] {
            return false;
        }
        i = next_used(a, i + 1);
        j = next_used(b, j + 1);
    }
    j >= m // the second list has ended, too
}

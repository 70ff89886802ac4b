// The members of a set of rules as a list: a loop over a list is faster than one over bits.
ghost use Rattle.std.specs.Prelude.{◌≤◌};
ghost use Rattle.fill_rules.specs.Rules.{word_bits};
ghost use Rattle.fill_rules.specs.Listing.{ListOf, ListedToo, Relisted};
ghost use Rattle.fill_sets.specs.Words.{Apart, WordListed};

use super::{WORD, none, same, with};
use fill_rules::{Listed, Rules};

pub type List = [usize; sizes::MAX_RULES];

// Adds the members of a word to the list, none of which is in it. The number of each is that of its bit, added to base.
fn list_word(base: usize, word: u64, before: Listed, list: &mut List) -> Listed
    requires { (base ≤ word_bits) × Apart base word before.set × ListOf before list.old }
    ensures { WordListed base word before result list.old list.new }
{
    let Listed { set, count } = before;
    let mut s = set;
    let mut n = count;
    let mut rest = word;
    while rest != 0 {
        let b = sets::wide::first(rest);
        list[n] = base + b;
        n += 1;
        s = with(s, base + b);
        rest = sets::wide::without(rest, b);
    }
    Listed { set: s, count: n }
}

// Adds the members of a set that are not listed.
pub fn list_too(s: Rules, before: Listed, list: &mut List) -> Listed
    requires { ListOf before list.old }
    ensures { ListedToo s before result list.old list.new }
{
    let old = before.set;
    if same(s, old) {
        return before;
    }
    let low = list_word(0, sets::wide::less(s.low, old.low), before, list);
    list_word(WORD, sets::wide::less(s.high, old.high), low, list)
}

// Lists the set, unless it is listed already.
pub fn relist(s: Rules, before: Listed, list: &mut List) -> Listed
    requires { ListOf before list.old }
    ensures { Relisted s result list.new }
{
    if same(s, before.set) {
        before
    } else {
        list_too(
            s,
            Listed {
                set: none(),
                count: 0,
            },
            list,
        )
    }
}

// From the bytes of one rule to the longer grammar, or to the refusal and the offset of the first fault.
ghost use Rattle.std.specs.Prelude.{true, ◌≡◌};
ghost use Rattle.grammar.specs.Valid.{valid_grammar};
ghost use Rattle.answers.specs.Number.{number_of};
ghost use Rattle.theory_tidying.specs.Tidying.{tidied};
ghost use Rattle.results.specs.Load.{accepted_load};
ghost use Rattle.results.specs.Learn.{enlarged};
ghost use Rattle.learn.specs.Reading.{reading_of, fault_in, joined_to, name_words};

use super::turn;
use answers::{Fault, Refusal};
use grammar::{Grammar, building};
use load_commands::opcode::Command;
use load_commands::scan;

// What reading gives, and the grammar: the longer one, or the old one at a fault. The grammar stands beside the answer, and not in its Ok,
// since the contract of `enlarge` says which grammar is handed back with a refusal.
#[derive(Clone, Copy)]
pub struct Enlarged {
    pub outcome: Result<(), Fault>,
    pub grammar: Grammar,
}

// A fault at an offset. It gives back the old grammar, so that the caller needs no second copy.
fn faulty(refusal: Refusal, at: usize, old: Grammar) -> Enlarged
    ensures { reading_of result ≡ fault_in old (record { number = number_of refusal; offset = at }) }
{
    Enlarged {
        outcome: Err(Fault { refusal, at }),
        grammar: old,
    }
}

// A rule read to its end with the grammar g, to which the nullable depth is added. The search is the last use of g, since each copy of
// a grammar takes 7 KB of stack.
fn deepened(g: Grammar) -> Enlarged
    requires { valid_grammar g ≡ true }
    ensures { reading_of result ≡ accepted_load g }
{
    let mut h = g;
    let found = load_nullable::search(g);
    let depth = load_nullable::nullable_depth(h, found.set);
    h.depth = depth;
    Enlarged {
        outcome: Ok(()),
        grammar: h,
    }
}

// The word of each used rule's name, and 0 for the rest.
fn words_of(g: Grammar) -> [u64; sizes::MAX_RULES]
    requires { valid_grammar g ≡ true }
    ensures { result ≡ name_words (tidied g) }
{
    let mut words = [0u64; sizes::MAX_RULES];
    for i in 0..g.count {
        words[i] = names::word(g.rules[i].name);
    }
    words
}

// The grammar without rubbish and with the rule of these bytes. Each turn of the loop reads one command and adds it to the grammar in
// place, as loading does; no start is read, since it is misplaced everywhere. Inlined, its copies of a grammar would be on the stack while
// the chart is filled.
#[inline(never)]
pub fn enlarge(old: Grammar, bytes: &[u8]) -> Enlarged
    requires { valid_grammar old ≡ true }
    ensures { (reading_of result ≡ joined_to old (enlarged old bytes.now)) × (valid_grammar result.grammar ≡ true) }
{
    if bytes.len() == 0 {
        return faulty(Refusal::NotOneRule, 0, old);
    }
    let mut words = words_of(old);
    let mut g = learn_tidy::tidy(old);
    let mut at = 0;
    loop {
        let n = g.count;
        let q = building::last_of(n);
        let open = g.rules[q];
        match turn::command_at(bytes, at, n, open.count, words[q]) {
            Ok(Command::Start(k)) => {
                g.start = k;
                at += 2;
            }
            Ok(Command::Rule(h, bytes)) => {
                g.rules[n] = building::opened(h.left, h.low, h.high, h.first, h.last);
                g.count = n + 1;
                words[n] = 0;
                at += bytes;
            }
            Ok(Command::Place(s, bytes)) => {
                g.rules[q] = building::placed(open, s);
                at += bytes;
            }
            Ok(Command::Name(first, word)) => {
                if names::earlier(&words, n, word) {
                    return faulty(Refusal::InvalidName, at, old);
                }
                g.rules[q] = scan::named_at(bytes, first, open);
                words[q] = word;
                at += 9;
            }
            Ok(Command::End) => return deepened(g),
            Err(fault) => return faulty(fault.refusal, fault.at, old),
        }
    }
}

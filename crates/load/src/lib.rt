// The loader: from the bytes of a book to a grammar, or to the refusal and the offset of the first fault.
#![tactic(auto)]

ghost use Rattle.std.specs.Prelude.{true, ◌≡◌};
ghost use Rattle.grammar.specs.Valid.{valid_grammar};
ghost use Rattle.answers.specs.Number.{number_of};
ghost use Rattle.results.specs.Load.{refused_load, accepted_load, load_of};
ghost use Rattle.load.specs.Answer.{loading_of};

use answers::{Fault, Refusal};
use grammar::{Grammar, building};
use load_commands::opcode::Command;
use load_commands::scan;

// What loading answers, and the grammar: that of the book, or zeros if the book is refused. The grammar stands beside the answer, and not
// in its Ok, since the contract of `load` says which grammar is handed back with a refusal.
#[derive(Clone, Copy)]
pub struct Loaded {
    pub outcome: Result<(), Fault>,
    pub grammar: Grammar,
}

// The answer for a book that is refused at an offset.
fn refused(refusal: Refusal, at: usize) -> Loaded
    ensures { loading_of result ≡ refused_load (record { number = number_of refusal; offset = at }) }
{
    Loaded {
        outcome: Err(Fault { refusal, at }),
        grammar: grammar::zero_grammar(),
    }
}

// The answer for a book read to its end as the grammar g, to which the nullable depth is added.
fn accepted(g: Grammar) -> Loaded
    requires { valid_grammar g ≡ true }
    ensures { loading_of result ≡ accepted_load g }
{
    let found = load_nullable::search(g);
    let mut h = g;
    h.depth = load_nullable::nullable_depth(g, found.set);
    Loaded {
        outcome: Ok(()),
        grammar: h,
    }
}

// Loads a book. Each turn of the loop reads one command and adds it to the grammar in place. Names are compared as words, which are kept
// beside the grammar.
pub fn load(bytes: &[u8]) -> Loaded
    ensures { loading_of result ≡ load_of bytes.now }
{
    let mut g = grammar::zero_grammar();
    let mut words = [0u64; sizes::MAX_RULES];
    let mut at = 0;
    loop {
        let n = g.count;
        let q = building::last_of(n);
        let open = g.rules[q];
        match scan::command_at(bytes, at, n, open.count, words[q]) {
            Ok(Command::Start(k)) => {
                g.start = k;
                at += 2;
            }
            Ok(Command::Rule(h, bytes)) => {
                g.rules[n] = building::opened(h.left, h.low, h.high, h.first, h.last);
                g.count = n + 1;
                words[n] = 0;
                at += bytes;
            }
            Ok(Command::Place(s, bytes)) => {
                g.rules[q] = building::placed(open, s);
                at += bytes;
            }
            Ok(Command::Name(first, word)) => {
                if names::earlier(&words, n, word) {
                    return refused(Refusal::InvalidName, at);
                }
                g.rules[q] = scan::named_at(bytes, first, open);
                words[q] = word;
                at += 9;
            }
            Ok(Command::End) => return accepted(g),
            Err(fault) => return refused(fault.refusal, fault.at),
        }
    }
}

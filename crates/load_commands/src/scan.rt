// The commands of a book: the command at an offset, or the fault for which it is refused. The checks of a command come in the order 2, 3,
// 1, 4, and then 5 for a rule, 6 for a place, 17 for a name or 7 for the end. For a rule with years 21 comes before 5, for a range 16
// before 6. Whether a name equals an earlier one is not checked here: that needs the names read so far.
ghost use Rattle.std.specs.Prelude.{◌+◌, ◌≤◌, ◌<◌, ◌≡◌, length};
ghost use Rattle.grammar.specs.Setters.{set_name};
ghost use Rattle.results.specs.Load.{operands, operand, word};
ghost use Rattle.load_commands.specs.Class.{byte_of};
ghost use Rattle.load_commands.specs.Command.{header_with, name_from, ChecksPassed, CommandRead};

use super::opcode;
use super::opcode::{Command, Header, Opcode};
use answers::{Fault, Refusal};
use grammar::{Rule, Symbol, building};

// Operand i, counted from 0, of the command at an offset, or 0 past the end of the book.
pub fn operand_at(bytes: &[u8], at: usize, i: usize) -> u8
    requires { at < length bytes.now }
    ensures { result ≡ operand bytes.now at i }
{
    let first = at + 1;
    if i < bytes.len() - first {
        bytes[first + i]
    } else {
        0
    }
}

// The number of 16 bits that operand i and the one after it hold, low byte first.
pub fn word_at(bytes: &[u8], at: usize, i: usize) -> u16
    requires { (at < length bytes.now) × (i < 7) }
    ensures { result ≡ word (operand bytes.now at i) (operand bytes.now at (i + 1)) }
{
    let low = operand_at(bytes, at, i);
    let high = operand_at(bytes, at, i + 1);
    u16::from(low) + 256 * u16::from(high)
}

// What the command at an offset opens a rule with, in these years. Operands 1 and 2 are the length.
pub fn header_at(bytes: &[u8], at: usize, left: u8, first: u16, last: u16) -> Header
    requires { at < length bytes.now }
    ensures { result ≡ header_with left (operand bytes.now at 1) (operand bytes.now at 2) first last }
{
    Header {
        left: left,
        low: operand_at(bytes, at, 1),
        high: operand_at(bytes, at, 2),
        first: first,
        last: last,
    }
}

// The eight bytes of a name from an offset on.
pub fn name_at(bytes: &[u8], first: usize) -> [u8; names::NAME]
    requires { first + 8 ≤ length bytes.now }
    ensures { result ≡ name_from bytes.now first }
{
    [
        bytes[first],
        bytes[first + 1],
        bytes[first + 2],
        bytes[first + 3],
        bytes[first + 4],
        bytes[first + 5],
        bytes[first + 6],
        bytes[first + 7],
    ]
}

// The rule with the name of eight bytes from an offset on.
pub fn named_at(bytes: &[u8], first: usize, rule: Rule) -> Rule
    requires { first + 8 ≤ length bytes.now }
    ensures { result ≡ set_name rule (name_from bytes.now first) }
{
    let name = name_at(bytes, first);
    let mut r = rule;
    r.name = name;
    r
}

// Check 5, 6, 17 or 7 of the command k at an offset, with 21 before 5 and 16 before 6. All its operands are there, and the first is a. The
// loader and learning both come here by `operands_at`. Where the two are not inlined, loading takes half as long again.
#[inline(always)]
pub fn limits_at(
    bytes: &[u8],
    at: usize,
    k: Opcode,
    a: u8,
    rules: usize,
    places: usize,
) -> Result<Command, Fault>
    requires k_in_bounds { at + 1 + operands (byte_of k) ≤ length bytes.now }
    requires a_value { a ≡ operand bytes.now at 0 }
    ensures { ChecksPassed 2 bytes.now at (byte_of k) rules places result }
{
    match k {
        Opcode::Start => Ok(Command::Start(a)),
        Opcode::Rule => {
            let header = header_at(bytes, at, a, 0, building::LAST_YEAR);
            opcode::rule(at, rules, header, 4)
        }
        Opcode::RuleWithYears => {
            let first = word_at(bytes, at, 3);
            let last = word_at(bytes, at, 5);
            let header = header_at(bytes, at, a, first, last);
            opcode::rule_with_years(at, rules, header)
        }
        Opcode::Nonterminal => opcode::place(at, places, Symbol::Nonterminal(a), 2),
        Opcode::Terminal => opcode::place(at, places, Symbol::Terminal(a), 2),
        Opcode::Range => {
            let high = operand_at(bytes, at, 1);
            opcode::range(at, places, a, high)
        }
        Opcode::Name => {
            let name = name_at(bytes, at + 1);
            let word = names::word(name);
            let valid = names::valid_name(name);
            opcode::name(at, at + 1, word, valid)
        }
        Opcode::End => opcode::end(at + 1, bytes.len()),
    }
}

// The command k at an offset with its operands: check 1, then 4, then its limits.
#[inline(always)]
pub fn operands_at(
    bytes: &[u8],
    at: usize,
    k: Opcode,
    rules: usize,
    places: usize,
) -> Result<Command, Fault>
    requires { at < length bytes.now }
    ensures { ChecksPassed 0 bytes.now at (byte_of k) rules places result }
{
    let first = at + 1;
    let left = bytes.len() - first;
    let n = opcode::operand_count(k);
    let a = operand_at(bytes, at, 0);
    let large = opcode::too_large(k, a);
    if left < n {
        return Err(Fault {
            refusal: Refusal::UnexpectedEnd,
            at: bytes.len(),
        });
    }
    if large {
        return Err(Fault {
            refusal: Refusal::NonterminalTooLarge,
            at,
        });
    }
    limits_at(bytes, at, k, a, rules, places)
}

// The command at an offset. What has been read before it is a grammar of this many rules, the last with this many places and a name of
// this word, which is 0 if it has none.
pub fn command_at(
    bytes: &[u8],
    at: usize,
    rules: usize,
    places: usize,
    word: u64,
) -> Result<Command, Fault>
    ensures { CommandRead bytes.now at rules places word result }
{
    let len = bytes.len();
    if at >= len {
        return Err(Fault {
            refusal: Refusal::UnexpectedEnd,
            at: len,
        });
    }
    let c = bytes[at];
    let Ok(k) = Opcode::try_from(c) else {
        return Err(Fault {
            refusal: Refusal::UnknownCommand,
            at,
        });
    };
    let turn = opcode::turn_at(at, rules, word);
    if opcode::out_of_turn(k, turn) {
        return Err(Fault {
            refusal: Refusal::OutOfTurn,
            at,
        });
    }
    operands_at(bytes, at, k, rules, places)
}

// The name lookup: which part of the caller's own book bytes is the name of a rule. It goes along the commands of a book that loads, and
// counts the rules that they open.
#![tactic(auto)]

ghost use Rattle.std.specs.Prelude.{suc, ◌+◌, ◌≤◌, cond, ◌&&◌, ◌≡◌, eqb};
ghost use Rattle.sizes.specs.Sizes.{max_rules};
ghost use Rattle.results.specs.Answer.{loaded};
ghost use Rattle.results.specs.Load.{opens_rule, load_of};
ghost use Rattle.results.specs.Name.{name_offset, name_part, name_of};
ghost use Rattle.load_commands.specs.Class.{byte_of};
ghost use Rattle.lookup.specs.Found.{found_of, part_of};

use load_commands::opcode;
use load_commands::opcode::Opcode;

// A part of the bytes: where it begins, and how many bytes it has.
#[derive(Clone, Copy)]
pub struct Part {
    pub offset: usize,
    pub length: usize,
}

// How many rules there are after a command.
fn rules_after(k: Opcode, rules: usize) -> usize
    requires { rules ≤ max_rules }
    ensures { result ≡ cond (opens_rule (byte_of k)) (rules + 1) rules }
{
    match k {
        Opcode::Rule | Opcode::RuleWithYears => rules + 1,
        Opcode::Start
        | Opcode::Nonterminal
        | Opcode::Terminal
        | Opcode::Range
        | Opcode::Name
        | Opcode::End => rules,
    }
}

// Whether a rule is the open one, the last of those that have been opened.
fn is_open(rules: usize, rule: usize) -> bool
    ensures { result ≡ eqb rules (suc rule) }
{
    rules > 0 && rules - 1 == rule
}

// Whether a command gives a rule its name.
fn names_rule(k: Opcode, rules: usize, rule: usize) -> bool
    ensures { result ≡ (eqb (byte_of k) 0x60 && eqb rules (suc rule)) }
{
    matches!(k, Opcode::Name) && is_open(rules, rule)
}

// Where the name of a rule begins in a book that loads: after the 60 that gives it.
fn find(bytes: &[u8], rule: usize) -> Option<usize>
    requires { (load_of bytes.now).answer ≡ loaded }
    ensures { found_of result ≡ name_offset bytes.now rule }
{
    let mut at = 0;
    let mut rules = 0;
    while at < bytes.len() {
        let Ok(k) = Opcode::try_from(bytes[at]) else {
            return None;
        };
        if names_rule(k, rules, rule) {
            return Some(at + 1);
        }
        rules = rules_after(k, rules);
        at += 1 + opcode::operand_count(k);
    }
    None
}

// The part that is the name of a rule, without its filling. It is empty if the book does not load, or if no command names the rule.
pub fn name_part(bytes: &[u8], rule: usize) -> Part
    ensures { part_of result ≡ name_part bytes.now rule }
{
    let Ok(()) = load::load(bytes).outcome else {
        return Part {
            offset: 0,
            length: 0,
        };
    };
    let Some(at) = find(bytes, rule) else {
        return Part {
            offset: 0,
            length: 0,
        };
    };
    Part {
        offset: at,
        length: words_text::length_at(bytes, at),
    }
}

// The name of a rule: the bytes of that part.
pub fn name<'a>(bytes: &'a [u8], rule: usize) -> &'a [u8]
    ensures { result.now ≡ name_of bytes.now rule }
{
    let p = name_part(bytes, rule);
    let at = p.offset;
    let end = at + p.length;
    &bytes[at..end]
}

// The parts of a step of loading that need only a few numbers. A command byte is classified once. Its turn, its operands and its limits
// depend on the opcode.
ghost use Rattle.std.specs.Prelude.{◌≡◌};
ghost use Rattle.results.specs.Load.{operands};
ghost use Rattle.load_commands.specs.Class.{byte_of, Classified};
ghost use Rattle.load_commands.specs.Command.{too_large, rule_command, years_command, place_command, range_command};
ghost use Rattle.load_commands.specs.Command.{name_command, end_command};
ghost use Rattle.load_commands.specs.Turn.{turn_with, late};

use answers::{Fault, Refusal};
use grammar::Symbol;

// A book has at most this many rules, and a rule this many places.
const RULES: usize = sizes::MAX_RULES;

const PLACES: usize = sizes::MAX_PLACES;

// A nonterminal (kind) is below this.
const NONTERMINALS: u8 = 32;

// A command without its operands.
#[derive(Clone, Copy)]
pub enum Opcode {
    Start,
    Rule,
    RuleWithYears,
    Nonterminal,
    Terminal,
    Range,
    Name,
    End,
}

// A byte that stands for no command.
#[derive(Clone, Copy)]
pub struct UnknownByte;

// What a rule is opened with: its left side, its length as a low and a high byte, and its first and last year.
#[derive(Clone, Copy)]
pub struct Header {
    pub left: u8,
    pub low: u8,
    pub high: u8,
    pub first: u16,
    pub last: u16,
}

// A command with its operands. A rule and a place have the number of the command's bytes, and a name the offset of its first byte and its
// word: a variant holds no array.
#[derive(Clone, Copy)]
pub enum Command {
    Start(u8),
    Rule(Header, usize),
    Place(Symbol, usize),
    Name(usize, u64),
    End,
}

// What has been read before a command: whether a start, whether a rule, to which places can be added, and whether a name for that rule.
#[derive(Clone, Copy)]
pub struct Turn {
    pub started: bool,
    pub opened: bool,
    pub named: bool,
}

// What has been read before an offset: this many rules, and for the last one a name of this word, which is 0 if it has none.
pub fn turn_at(at: usize, rules: usize, word: u64) -> Turn
    ensures { result ≡ turn_with at rules word }
{
    Turn {
        started: at > 0,
        opened: rules > 0,
        named: word != 0,
    }
}

// The only function that looks at the value of a command byte.
impl TryFrom<u8> for Opcode {
    type Error = UnknownByte;

    ghost try_from_gives = { Classified };

    fn try_from(c: u8) -> Result<Self, UnknownByte> {
        match c {
            0x10 => Ok(Opcode::Start),
            0x20 => Ok(Opcode::Rule),
            0x21 => Ok(Opcode::RuleWithYears),
            0x30 => Ok(Opcode::Nonterminal),
            0x40 => Ok(Opcode::Terminal),
            0x41 => Ok(Opcode::Range),
            0x50 => Ok(Opcode::End),
            0x60 => Ok(Opcode::Name),
            _ => Err(UnknownByte),
        }
    }
}

// How many operands a command has.
pub fn operand_count(k: Opcode) -> usize
    ensures { result ≡ operands (byte_of k) }
{
    match k {
        Opcode::Start | Opcode::Nonterminal | Opcode::Terminal => 1,
        Opcode::Rule => 3,
        Opcode::RuleWithYears => 7,
        Opcode::Range => 2,
        Opcode::Name => 8,
        Opcode::End => 0,
    }
}

// Check 3 refuses a start that is not first, another command that is, a second name for a rule, and a place or a name before any rule.
pub fn out_of_turn(k: Opcode, turn: Turn) -> bool
    ensures { result ≡ late (byte_of k) turn }
{
    match k {
        Opcode::Start => turn.started,
        Opcode::Rule | Opcode::RuleWithYears | Opcode::End => !turn.started,
        Opcode::Nonterminal | Opcode::Terminal | Opcode::Range => !turn.started || !turn.opened,
        Opcode::Name => !turn.started || (turn.named || !turn.opened),
    }
}

// Check 4, for a command whose first operand is a.
pub fn too_large(k: Opcode, a: u8) -> bool
    ensures { result ≡ too_large (byte_of k) a }
{
    match k {
        Opcode::Start | Opcode::Rule | Opcode::RuleWithYears | Opcode::Nonterminal => a
            >= NONTERMINALS,
        Opcode::Terminal | Opcode::Range | Opcode::Name | Opcode::End => false,
    }
}

// A refusal at an offset. It is not inlined, so that the compiler keeps the branch to it. Else it makes a refusal beside each command, and
// loading a full book takes a quarter more time.
#[inline(never)]
fn fault_of(refusal: Refusal, at: usize) -> Fault
    ensures { result ≡ record { refusal = refusal; at = at } }
{
    Fault { refusal, at }
}

// Check 5: a command of this many bytes that opens a rule, after this many rules.
pub fn rule(at: usize, rules: usize, header: Header, bytes: usize) -> Result<Command, Fault>
    ensures { result ≡ rule_command at rules header bytes }
{
    if rules >= RULES {
        return Err(fault_of(Refusal::TooManyRules, at));
    }
    Ok(Command::Rule(header, bytes))
}

// Checks 21 and 5: command 21 after this many rules.
pub fn rule_with_years(at: usize, rules: usize, header: Header) -> Result<Command, Fault>
    ensures { result ≡ years_command at rules header }
{
    if header.first > header.last {
        return Err(fault_of(Refusal::YearsReversed, at));
    }
    rule(at, rules, header, 8)
}

// Check 6: a command of this many bytes that adds a place, in an open rule of this many places.
pub fn place(at: usize, places: usize, symbol: Symbol, bytes: usize) -> Result<Command, Fault>
    ensures { result ≡ place_command at places symbol bytes }
{
    if places >= PLACES {
        return Err(fault_of(Refusal::TooManyPlaces, at));
    }
    Ok(Command::Place(symbol, bytes))
}

// Checks 16 and 6: command 41 in an open rule of this many places.
pub fn range(at: usize, places: usize, low: u8, high: u8) -> Result<Command, Fault>
    ensures { result ≡ range_command at places low high }
{
    if low > high {
        return Err(fault_of(Refusal::RangeReversed, at));
    }
    place(at, places, Symbol::Range(low, high), 3)
}

// Check 17 but for earlier names: command 60, whose name begins at the offset first, has this word, and is valid or not.
pub fn name(at: usize, first: usize, word: u64, valid: bool) -> Result<Command, Fault>
    ensures { result ≡ name_command at first word valid }
{
    if !valid {
        return Err(fault_of(Refusal::InvalidName, at));
    }
    Ok(Command::Name(first, word))
}

// Check 7: command 50 in a book of this many bytes. The offset after the command is next.
pub fn end(next: usize, len: usize) -> Result<Command, Fault>
    ensures { result ≡ end_command next len }
{
    if next < len {
        return Err(fault_of(Refusal::FurtherByte, next));
    }
    Ok(Command::End)
}

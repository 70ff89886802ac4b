// The command at an offset of a rule that is learnt, or the fault for which it is refused. Its checks come in the order 2, 20, 3, and then
// those of its operands.
ghost use Rattle.std.specs.Prelude.{◌&&◌, not, ◌≡◌, eqb};
ghost use Rattle.results.specs.Learn.{misplaced as misplaced_in};
ghost use Rattle.load_commands.specs.Class.{byte_of};
ghost use Rattle.learn.specs.Command.{LearnRead};

use answers::{Fault, Refusal};
use load_commands::opcode::{Command, Opcode};
use load_commands::scan::operands_at;

// Check 20: the first command opens the rule, and a later one adds to it.
fn misplaced(k: Opcode, at: usize) -> bool
    ensures { result ≡ misplaced_in (byte_of k) at }
{
    match k {
        Opcode::Start | Opcode::End => true,
        Opcode::Rule | Opcode::RuleWithYears => at != 0,
        Opcode::Nonterminal | Opcode::Terminal | Opcode::Range | Opcode::Name => at == 0,
    }
}

// Check 3: a name, after the open rule has got one of this word.
fn second_name(k: Opcode, word: u64) -> bool
    ensures { result ≡ (eqb (byte_of k) 0x60 && not (eqb word 0)) }
{
    matches!(k, Opcode::Name) && word != 0
}

// The command at an offset; the rule ends where the bytes end. What has been read before it is a grammar of this many rules, the last with
// this many places and a name of this word, which is 0 if it has none.
pub fn command_at(
    bytes: &[u8],
    at: usize,
    rules: usize,
    places: usize,
    word: u64,
) -> Result<Command, Fault>
    ensures { LearnRead bytes.now at rules places word result }
{
    if at >= bytes.len() {
        return Ok(Command::End);
    }
    let Ok(k) = Opcode::try_from(bytes[at]) else {
        return Err(Fault {
            refusal: Refusal::UnknownCommand,
            at,
        });
    };
    if misplaced(k, at) {
        return Err(Fault {
            refusal: Refusal::NotOneRule,
            at,
        });
    }
    if second_name(k, word) {
        return Err(Fault {
            refusal: Refusal::OutOfTurn,
            at,
        });
    }
    operands_at(bytes, at, k, rules, places)
}

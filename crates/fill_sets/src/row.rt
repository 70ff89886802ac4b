// Rows of sets of rules: one for each start, or for each nonterminal.
ghost use Rattle.std.specs.Prelude.{◌≡◌, ◌<◌, length};
ghost use Rattle.sizes.specs.Sizes.{max_input};
ghost use Rattle.fill_rules.specs.Rules.{row_size, set_at, SetPut};

use fill_rules::Rules;

pub const ROW_SIZE: usize = 2 * sizes::MAX_INPUT;

pub type Row = [u64; ROW_SIZE];

// Set i of the row.
pub fn set_at(row: &Row, i: usize) -> Rules
    requires { i < max_input }
    ensures { result ≡ set_at row.now i }
{
    Rules {
        low: row[2 * i],
        high: row[2 * i + 1],
    }
}

// Puts set i of the row.
pub fn put_set(row: &mut Row, i: usize, s: Rules)
    requires { (i < max_input) × (length row.old ≡ row_size) }
    ensures { SetPut i s row.old row.new }
{
    row[2 * i] = s.low;
    row[2 * i + 1] = s.high;
}

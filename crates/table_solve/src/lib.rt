// The least numbers of nodes over one whole span: passes over the rules, from 513 everywhere, until a pass changes nothing.
#![tactic(auto)]

ghost use Rattle.std.specs.Prelude.{◌<◌, ◌≤◌};
ghost use Rattle.sizes.specs.Sizes.{max_rules, nonterminals, side};
ghost use Rattle.table_solve.specs.Solve.{RuleOver, Wanted, Numbers, Improved, PassSolved, Solved};

use packed::Packed;
use table_layout::bare::bare;
use table_layout::layout::{Full, Tables};
use table_layout::least::TOO_MANY;
use table_rule::alone::rule_empty;
use table_rule::rule::rule_cost;

// The cost of rule r over the span from i to j, the node included. Over no byte it is the cost of its places together. Otherwise it
// comes from the tables: the cost without a child over the whole span, and the costs with one.
pub fn rule_over(p: &Packed, r: usize, full: &Full, tables: &Tables, i: usize, j: usize) -> u16
    requires { (r < max_rules) × (i ≤ j) × (j < side) }
    ensures { RuleOver p.now r full.now tables.now i j result }
{
    if i < j {
        rule_cost(p, r, full, tables, bare(tables, i, j, r))
    } else {
        rule_empty(p, r, full)
    }
}

// Whether the number of the nonterminal k is wanted: the cell has k, and the mask does not.
fn wanted(k: usize, cell: u32, mask: u32) -> bool
    requires { k < nonterminals }
    ensures { Wanted k cell mask result }
{
    if sets::has(cell, k) {
        return !sets::has(mask, k);
    }
    false
}

// Lowers the number of rule r's left side to the rule's cost, if that is lower. Says whether it did.
fn improve(
    p: &Packed,
    r: usize,
    cell: u32,
    mask: u32,
    tables: &Tables,
    i: usize,
    j: usize,
    full: &mut Full,
) -> bool
    requires { (r < max_rules) × (i ≤ j) × (j < side) × Numbers full.old }
    ensures { Improved p.now r cell mask tables.now i j full.old full.new result }
{
    let k = packed::left(p, r);
    if k < sizes::NONTERMINALS {
        if wanted(k, cell, mask) {
            let v = rule_over(p, r, full, tables, i, j);
            if v < full[k] {
                full[k] = v;
                return true;
            }
        }
    }
    false
}

// One pass over the rules below `rules`. Says whether a number got lower.
fn pass(
    p: &Packed,
    rules: usize,
    cell: u32,
    mask: u32,
    tables: &Tables,
    i: usize,
    j: usize,
    full: &mut Full,
) -> bool
    requires { (rules ≤ max_rules) × (i ≤ j) × (j < side) × Numbers full.old }
    ensures { PassSolved p.now rules cell mask tables.now i j full.old full.new result }
{
    let mut changed = false;
    for r in 0..rules {
        if improve(p, r, cell, mask, tables, i, j, full) {
            changed = true;
        }
    }
    changed
}

// Passes over the rules below `rules` until one changes nothing.
pub fn solve(
    p: &Packed,
    rules: usize,
    cell: u32,
    mask: u32,
    tables: &Tables,
    i: usize,
    j: usize,
) -> Full
    requires { (rules ≤ max_rules) × (i ≤ j) × (j < side) }
    ensures { Solved p.now rules cell mask tables.now i j result }
{
    let mut full = [TOO_MANY; sizes::NONTERMINALS];
    if cell == 0 {
        return full;
    }
    loop {
        if !pass(p, rules, cell, mask, tables, i, j, &mut full) {
            return full;
        }
    }
}

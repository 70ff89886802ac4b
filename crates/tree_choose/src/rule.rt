// Which rule a node has: the first one, from a given number on, that costs at most the budget.
ghost use Rattle.std.specs.Prelude.{◌<◌, ◌≤◌, IfSome, unwrap_or};
ghost use Rattle.sizes.specs.Sizes.{max_rules, side};
ghost use Rattle.tree_choose.specs.Chosen.{RuleTested, RuleChosen};

use packed::Packed;
use table_layout::layout::{Full, Tables};
use table_solve::rule_over;
use tree_node::Span;

// Whether rule r is of the nonterminal k and costs at most the budget over the span.
fn within_budget(
    p: &Packed,
    k: usize,
    full: &Full,
    tables: &Tables,
    i: usize,
    j: usize,
    budget: usize,
    r: usize,
) -> bool
    requires { (r < max_rules) × (i ≤ j) × (j < side) }
    ensures { RuleTested p.now k full.now tables.now i j budget r result }
{
    if packed::left(p, r) != k {
        return false;
    }
    usize::from(rule_over(p, r, full, tables, i, j)) <= budget
}

// The smallest rule of k from `from` on and below `rules` that costs at most the budget over the span, if there is one.
pub fn choose_rule(
    p: &Packed,
    rules: usize,
    from: usize,
    k: usize,
    full: &Full,
    tables: &Tables,
    span: Span,
    budget: usize,
) -> Option<usize>
    requires { (rules ≤ max_rules) × (from ≤ max_rules) }
    ensures chosen { RuleChosen p.now rules from k full.now tables.now span.i span.j budget (unwrap_or result max_rules) }
    ensures is_rule { IfSome result (λ r. r < max_rules) }
{
    let i = span.i;
    let j = span.j;
    for r in from..rules {
        if within_budget(p, k, full, tables, i, j, budget, r) {
            return Some(r);
        }
    }
    None
}

// What a node needs before its row is written: the costs over its span, its rule, and the costs of the rule's places.
ghost use Rattle.std.specs.Prelude.{◌≡◌, ◌<◌, ◌≤◌, length, IfSome, unwrap_or};
ghost use Rattle.sizes.specs.Sizes.{max_rules, nonterminals, cells};
ghost use Rattle.table_layout.specs.Layout.{rows_size};
ghost use Rattle.chart.specs.Cell.{cell};
ghost use Rattle.table_solve.specs.Solve.{Solved};
ghost use Rattle.tree_first.specs.Descend.{MaybeSolved, NodeOpened};

use packed::Packed;
use table_all::made::Made;
use table_layout::layout::{Full, Tables};
use table_solve::solve;
use table_suffix::rows::{Rows, put_rows};
use tree_choose::rule::choose_rule;
use tree_node::Span;

// The first number of costs that are not made yet: no cost is as large.
pub const UNMADE: u16 = 65535;

// Makes the costs over the span under its mask, unless they are already made. It takes no `Made`, since it needs no fit table.
pub fn make_costs(
    p: &Packed,
    rules: usize,
    chart: &[u32],
    tables: &Tables,
    span: Span,
    full: &mut Full,
)
    requires { (rules ≤ max_rules) × (cells ≤ length chart.now) × (length full.old ≡ nonterminals)
        × MaybeSolved p.now rules (cell chart.now span.i span.j) span.mask tables.now span.i span.j full.old }
    ensures { Solved p.now rules (cell chart.now span.i span.j) span.mask tables.now
        span.i span.j full.new }
{
    if usize::from(full[0]) > sizes::TOO_MANY {
        let i = span.i;
        let j = span.j;
        let cell = chart[sizes::SIDE * i + j];
        *full = solve(p, rules, cell, span.mask, tables, i, j);
    }
}

// Chooses the first rule of k from `from` on that costs at most the budget over the span. Makes the costs over the span under its mask,
// unless they are already made, and those of the rule's places. The result is the rule, if there is one.
pub fn open_node(
    made: &Made,
    from: usize,
    k: usize,
    span: Span,
    budget: usize,
    full: &mut Full,
    rows: &mut Rows,
) -> Option<usize>
    requires { (from ≤ max_rules) × (length full.old ≡ nonterminals) × (length rows.old ≡ rows_size)
        × MaybeSolved made.now.p.now made.now.rules (cell made.now.chart.now span.i span.j) span.mask made.now.tables.now
        span.i span.j full.old }
    ensures opened { NodeOpened made.now.p.now made.now.rules made.now.fits.now made.now.chart.now made.now.tables.now
        from k span.i span.j span.mask budget full.new rows.new (unwrap_or result max_rules) }
    ensures is_rule { IfSome result (λ r. r < max_rules) }
{
    if budget == 0 {
        return None;
    }
    make_costs(made.p, made.rules, made.chart, made.tables, span, full);
    let r = choose_rule(made.p, made.rules, from, k, full, made.tables, span, budget)?;
    put_rows(
        made.p,
        r,
        made.fits,
        made.tables,
        full,
        span.i,
        span.j,
        rows,
    );
    Some(r)
}

// The frame of a node: the costs over its span, and those of the places of its rule. A frame is made only when it is needed.
ghost use Rattle.std.specs.Prelude.{◌<◌};
ghost use Rattle.sizes.specs.Sizes.{max_rules, max_places, side};
ghost use Rattle.tree_later.specs.Beyond.{Frame, CostsMade, RestMade};

use table_all::made::Made;
use table_layout::layout::Full;
use table_suffix::rows::{Rows, put_rows};
use tree_first::open::make_costs;
use tree_node::Span;

// Makes the frame, unless it is already made.
pub fn make(made: &Made, r: usize, span: Span, full: &mut Full, rows: &mut Rows)
    requires { (r < max_rules)
        × Frame made.now.p.now made.now.rules made.now.fits.now made.now.chart.now made.now.tables.now
        r span.i span.j span.mask full.old rows.old }
    ensures { CostsMade made.now.p.now made.now.rules made.now.fits.now made.now.chart.now made.now.tables.now
        r span.i span.j span.mask full.new rows.new }
{
    if usize::from(full[0]) > sizes::TOO_MANY {
        make_costs(made.p, made.rules, made.chart, made.tables, span, full);
        put_rows(
            made.p,
            r,
            made.fits,
            made.tables,
            full,
            span.i,
            span.j,
            rows,
        );
    }
}

// Makes the frame, unless it is already made. The result is the least cost of the places after place q of rule r, from position b on. It
// takes no `Child`, since it asks nothing of where the child begins.
pub fn rest_of(
    made: &Made,
    r: usize,
    q: usize,
    b: usize,
    span: Span,
    full: &mut Full,
    rows: &mut Rows,
) -> usize
    requires { (r < max_rules) × (q < max_places) × (b < side)
        × Frame made.now.p.now made.now.rules made.now.fits.now made.now.chart.now made.now.tables.now
        r span.i span.j span.mask full.old rows.old }
    ensures { RestMade made.now.p.now made.now.rules made.now.fits.now made.now.chart.now made.now.tables.now
        r span.i span.j span.mask q b full.new rows.new result }
{
    make(made, r, span, full, rows);
    usize::from(rows[sizes::SIDE * (q + 1) + b])
}

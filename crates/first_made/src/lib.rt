// The tables of an input and, once they are made, whether there is a derivation, and the first one.
#![tactic(auto)]

ghost use Rattle.std.specs.Prelude.{◌≡◌, ◌<◌, ◌≤◌, leb, length};
ghost use Rattle.sizes.specs.Sizes.{cells, max_nodes, output_size, max_rules, max_input, side};
ghost use Rattle.theory_costs.specs.Span.{bytes_of};
ghost use Rattle.tree_first.specs.Descend.{InputGiven};
ghost use Rattle.packed_fit.specs.Fit.{Told};
ghost use Rattle.table_layout.specs.Exact.{ChartTrue};
ghost use Rattle.table_layout.specs.Layout.{cost_in, tables_size};
ghost use Rattle.first_made.specs.Written.{FirstWritten};

use packed::Packed;
use packed_fit::FitTable;
use table_all::ends::tabulate;
use table_all::made::Made;
use table_layout::layout::{Tables, cost};
use tree_first::first::node;
use tree_node::{Root, Span};

// Makes the tables of the input, whose chart is filled and whose fit table is made. The result is the number after the last rule.
pub fn build(p: &Packed, input: &[u8], fits: &FitTable, chart: &[u32], tables: &mut Tables) -> usize
    requires { (length input.now ≤ max_input) × (cells ≤ length chart.now) × (length tables.old ≡ tables_size)
        × Told p.now input.now fits.now × ChartTrue p.now (bytes_of input.now) chart.now (length input.now) }
    ensures { (result ≤ max_rules)
        × InputGiven p.now result fits.now chart.now tables.new input.now }
{
    let rules = packed::rule_count(p);
    tabulate(p, rules, fits, chart, input.len(), tables);
    rules
}

// Whether a derivation exists: a tree of the start symbol over n bytes has at most 512 nodes.
pub fn exists(tables: &Tables, start: usize, n: usize) -> bool
    requires { n < side }
    ensures { result ≡ leb (cost_in tables.now start 0 n) max_nodes }
{
    usize::from(cost(tables, start, 0, n)) <= sizes::MAX_NODES
}

// Writes the first derivation to the front of the output. The result is the number of its nodes.
pub fn write_first(made: &Made, root: Root, out: &mut [u16]) -> usize
    requires { output_size ≤ length out.old }
    ensures { FirstWritten made.now.p.now made.now.rules made.now.fits.now made.now.chart.now made.now.tables.now
        root.start root.n out.old out.new result }
{
    let Root { start, n } = root;
    let whole = Span {
        i: 0,
        j: n,
        mask: 0,
    };
    node(made, start, whole, sizes::MAX_NODES, out, 0).unwrap_or(0)
}

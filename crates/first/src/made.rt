// The first derivation, once the tables are made.
ghost use Rattle.std.specs.Prelude.{◌≤◌, length};
ghost use Rattle.sizes.specs.Sizes.{output_size};
ghost use Rattle.answers.specs.Answers.{handing_of};
ghost use Rattle.first.specs.Made.{FirstMade};

use answers::Refusal;
use first_made::{exists, write_first};
use table_all::made::Made;
use tree_node::Root;

// The first derivation, if trees exist: it is handed out, or refused with 13.
pub fn first_made(made: &Made, root: Root, out: &mut [u16]) -> Result<Option<usize>, Refusal>
    requires { output_size ≤ length out.old }
    ensures { FirstMade made.now.p.now made.now.rules made.now.fits.now made.now.chart.now made.now.tables.now
        root.start root.n out.old out.new (handing_of result) }
{
    if exists(made.tables, root.start, root.n) {
        let nodes = write_first(made, root, out);
        Ok(Some(nodes))
    } else {
        Err(Refusal::OnlyLargerTrees)
    }
}

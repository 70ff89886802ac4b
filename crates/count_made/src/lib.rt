// Counting the derivations one after the other, from the first one on.
#![tactic(auto)]

ghost use Rattle.std.specs.Prelude.{◌≤◌, length};
ghost use Rattle.sizes.specs.Sizes.{output_size};
ghost use Rattle.answers.specs.Answers.{counted_of};
ghost use Rattle.count_made.specs.Made.{CountedOn};

use answers::{Figure, Refusal};
use next_made::successor::advance_root;
use sizes::MOST;
use table_all::made::Made;
use tree_node::Root;

// Counts the derivations, if the first one is at the front of the buffer.
pub fn count_on(made: &Made, root: Root, buf: &mut [u16]) -> Result<Figure, Refusal>
    requires { output_size ≤ length buf.old }
    ensures { CountedOn made.now.p.now made.now.rules made.now.fits.now made.now.chart.now made.now.tables.now
        root.start root.n buf.old (counted_of result) }
{
    for i in 0..MOST {
        let Some(_) = advance_root(made, root, buf) else {
            return Ok(Figure::Exactly(i + 1));
        };
    }
    Ok(Figure::More)
}

// The derivation after an offered one is handed out, once the tables are made.
ghost use Rattle.std.specs.Prelude.{◌≤◌, length};
ghost use Rattle.answers.specs.Answers.{handing_of};
ghost use Rattle.sizes.specs.Sizes.{output_size};
ghost use Rattle.next_made.specs.Made.{NextMade};

use super::successor::advance_root;
use answers::Refusal;
use table_all::made::Made;
use tree_node::Root;

// The derivation after the offered one, once the tables are made. The buffer is this function's own: the output is written only if there is
// such a derivation.
pub fn next_made(
    made: &Made,
    root: Root,
    offered: &[u16],
    out: &mut [u16],
) -> Result<Option<usize>, Refusal>
    requires { (length offered.now ≤ output_size) × (output_size ≤ length out.old) }
    ensures { NextMade made.now.p.now made.now.rules made.now.fits.now made.now.chart.now made.now.tables.now
        root.start root.n offered.now out.old out.new (handing_of result) }
{
    let mut buf = [0u16; sizes::OUTPUT];
    buf[..offered.len()].copy_from_slice(offered);
    let Some(m) = advance_root(made, root, &mut buf) else {
        return Ok(None);
    };
    let written = 2 * m;
    out[..written].copy_from_slice(&buf[..written]);
    Ok(Some(m))
}

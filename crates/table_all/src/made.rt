// What the enumerator reads, in one struct.
ghost use Rattle.std.specs.Prelude.{◌≤◌, length};
ghost use Rattle.sizes.specs.Sizes.{max_rules, cells};

use packed::Packed;
use packed_fit::FitTable;
use table_layout::layout::Tables;

// What the enumerator reads of a grammar and an input once the tables are made: the packed grammar, the number after its last rule, the fit
// table, the filled chart and the tables.
#[derive(Clone, Copy)]
pub struct Made<'a> {
    pub p: &'a Packed,
    pub rules: usize,
    pub fits: &'a FitTable,
    pub chart: &'a [u32],
    pub tables: &'a Tables,
    pub ghost few: { rules ≤ max_rules },
    pub ghost whole: { cells ≤ length chart.now },
}

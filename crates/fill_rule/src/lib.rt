// One rule at one cell of a column of the chart: from which places on the rule cuts the span.
#![tactic(auto)]

pub mod begins;
pub mod passes;

// The least number of nodes of a parse tree over a span, by numbers only: theory only, no code.
#![tactic(auto)]

// Which rule, which cover and which budget the first derivation takes, from least numbers of nodes: theory only, no code.
#![tactic(auto)]

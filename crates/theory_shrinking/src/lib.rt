// Trees without superfluous recursion: theorems only, no code.
#![tactic(auto)]

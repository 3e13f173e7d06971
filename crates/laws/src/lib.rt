// Laws that the other crates cite; no code.
#![tactic(auto)]

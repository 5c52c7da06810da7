// Laws of lamp lists and bounds blocks that no code cites: specs/.

#![tactic(auto)]

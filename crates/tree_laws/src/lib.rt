// Laws of the built light tree that no code cites: specs/.

#![tactic(auto)]

// Laws of packed trees that no code cites: specs/.

#![tactic(auto)]

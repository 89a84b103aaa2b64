#![tactic(auto)]

// Laws of reading a line from left to right stand in specs/.

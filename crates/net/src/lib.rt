#![tactic(auto)]

// What the working numbers hold of the net at hand, and of the plan so far, stands in specs/.

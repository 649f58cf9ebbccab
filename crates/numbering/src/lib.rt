// Which tuples a tracker has, and how they are numbered: specifications only.
#![tactic(auto)]

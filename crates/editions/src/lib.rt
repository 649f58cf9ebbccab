// A sheet of the first edition in the second: specifications only.
#![tactic(auto)]

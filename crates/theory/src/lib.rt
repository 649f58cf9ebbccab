// The determinization theorem: specifications only.
#![tactic(auto)]

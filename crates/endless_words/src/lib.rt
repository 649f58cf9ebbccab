// The tracker on every endless sequence of letters, repeating or not: specifications only.
#![tactic(auto)]

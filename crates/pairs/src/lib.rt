// How long a shortest word with meeting walks can be: specifications only.
#![tactic(auto)]

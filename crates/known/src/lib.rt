// Document 01's known cases, shown from the definitions: specifications only.
#![tactic(auto)]

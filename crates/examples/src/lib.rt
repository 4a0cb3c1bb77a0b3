// The examples of docs/RULES.md, section 13, proved of the definitions of the layers below. It has no code.
#![tactic(auto)]

// What is proved of the public calls together; no code.
#![tactic(auto)]

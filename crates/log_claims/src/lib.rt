// What is proved of a log's reading and writing together; no code.
#![tactic(auto)]

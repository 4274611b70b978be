// The subject's words and their laws, over plain lists; there is no code here to run.
#![tactic(auto)]

// A text's meaning as loops over its tokens: definitions and their law, no code.

#![tactic(auto)]

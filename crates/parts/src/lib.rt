// What stands from one place of a text to another, what it derives and which records it gives: definitions and their laws, no code.

#![tactic(auto)]

// Bits of a word: definitions and laws over any width. No code.
#![tactic(auto)]

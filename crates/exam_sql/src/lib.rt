//! What the statements of the office's eleven tables do to their rows. It has only definitions and lemmas.
#![tactic(auto)]

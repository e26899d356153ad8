//! Worked rows of elaboration, from source to refusal, computed from the definitions alone. The
//! tokens of a source are those of the lexer's definition, and its tree is that of the grammar's
//! reader. Nothing in it runs.
#![tactic(auto)]

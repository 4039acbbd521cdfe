//! A stack machine that reads words as expressions and lines. Its stack has what is still expected.
//! The parsers' inner functions are proved against it, but no contract of a whole parser mentions
//! it: you only have to trust the grammar of `basic_tree`.
//!
//! `specs/MachineStack` has the stack, `MachineMoves` what each symbol does with a word,
//! `MachineForms` and `MachineSentences` what each statement expects, word by word, `MachineRun`
//! its run, and `MachineJudge` its verdict on a line. The lemmas of `proofs/` prove that machine
//! and grammar agree, in both directions.
//!
//! `laws` has the theorems about the grammar that are proved by it: one answer for words and for
//! bytes (`one_tree`, `one_line`, `levels_are_settled`, `expressions_are_read`,
//! `expressions_have_one_answer`, `lines_have_one_answer`, `bytes_have_one_answer`), and one
//! verdict on each line (`lines_are_judged`, `one_verdict`).
#![tactic(auto)]

pub mod laws;

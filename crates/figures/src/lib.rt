// The figures that document 01 marks (P): one table, specs/Figures.antt, under one claim, proofs/Figures.antt. There is no code.
#![tactic(auto)]

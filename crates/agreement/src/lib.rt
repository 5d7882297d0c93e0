// The definitions against an independent model: specs/ says what a case is, proofs/ holds the tables of cases that tests/model/tables.py writes.
#![tactic(auto)]

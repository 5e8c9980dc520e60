//! Signs of predicates, a predicate replaced by a truth value, and normal forms.
//!
//! A predicate that occurs with one sign alone can be made as true, or as false, as that sign asks: `specs/Signs.antt`
//! says what a sign is, `specs/Valued.antt` what the replacement is, and the law of the block stands on `valued`.
//!
//! Three forms of a formula, each with its exact result and with laws on what it keeps: `specs/Nnf.antt`, negations at
//! atoms alone; `specs/Apart.antt`, distinct bound variables; `specs/Prenex.antt`, quantifiers of variables in front.
//!
//! `specs/Cases.antt` says into which cases a formula falls for a predicate: some case holds exactly where the formula does.
//! `specs/Folds.antt` has the formulas of lists, which the module `folding` makes: of a case, of alternatives.
#![tactic(auto)]

pub mod apart;
pub mod case_list;
pub mod cases;
pub mod folding;
pub mod laws;
pub mod nnf;
pub mod prenex;
pub mod signs;
mod splits;
pub mod valued;

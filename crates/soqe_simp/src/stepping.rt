//! A step at the root of a formula that is given up for it: its parts are moved, and not copied.
#![tactic(auto, unfolding(soqe_form::specs::Boxes::boxes))]

ghost use Rattle.std.specs.Prelude.{◌≡◌, IfOk};
ghost use Rattle.soqe_simp.specs.Stepped.{stepped};

use crate::parts::denied;
use crate::questions::{
    denies, is_denied, is_false, is_free_pred, is_implication, is_negation, is_true,
};
use crate::results::gives;
use crate::rewriting::Rewritten;
use crate::rows::{excluded, joined, solved_condition, solved_negation, solved_some};
use soqe_form::{Form, is_free, same};
use soqe_number::Mem;
use sqlite_items::Boxed;
use std::alloc::Global;

/// What the first row gave, or the formula as it was where no row applies.
#[derive(Drop)]
pub enum Stepped {
    Settled(Boxed<Form>),
    Made(Rewritten),
}

/// The table of rows as a match on the formula. A row has its number, the condition on the parts, and what it gives: a formula,
/// or what an expression makes of the parts. A row with `if let` searches first. Where none of its rows applies, the formula is
/// put together again.
macro_rules! rows {
    (
        $alloc:ident, $form:ident;
        $(Form::$root:ident $(($($part:ident),+))? { $($rows:tt)* })+
        otherwise => Stepped::$settled:ident
    ) => {
        match $form {
            $(Form::$root $(($($part),+))? => {
                rows! { @each $alloc; $($rows)* }
                let itself = Boxed::new($alloc, Form::$root $(($($part),+))?)?;
                Ok(Stepped::$settled(itself))
            })+
        }
    };
    (@each $alloc:ident;) => {};
    (@each $alloc:ident; $row:literal if let Some($found:ident) = $search:expr => $made:expr; $($more:tt)*) => {
        if let Some($found) = $search {
            return gives($row, $made);
        }
        rows! { @each $alloc; $($more)* }
    };
    (@each $alloc:ident; $row:literal if $test:expr => Form::$root:ident $(($($part:expr),+))?; $($more:tt)*) => {
        if $test {
            let made = Boxed::new($alloc, Form::$root $(($($part),+))?)?;
            return gives($row, made);
        }
        rows! { @each $alloc; $($more)* }
    };
    (@each $alloc:ident; $row:literal if $test:expr => $made:expr; $($more:tt)*) => {
        if $test {
            return gives($row, $made);
        }
        rows! { @each $alloc; $($more)* }
    };
}

/// The first row that applies at the root, with what it gives; or the formula itself.
#[tactic(auto, using(crate::proofs::Signs::no_negation, crate::proofs::Signs::no_implication), unfolding(soqe_form::specs::Boxes::boxes))]
pub fn take_step(alloc: Global, form: Form) -> Mem<Stepped>
    ensures { IfOk result (λ r. r ≡ stepped form) }
{
    rows! { alloc, form;
        Form::True {}
        Form::False {}
        Form::Equal(s, t) {
            4 if s.get().equals(t.get()) => Form::True;
        }
        Form::Atom(p, ts) {}
        Form::Not(a) {
            1 if is_true(a.get()) => Form::False;
            2 if is_false(a.get()) => Form::True;
            3 if is_negation(a.get()) => denied(a);
        }
        Form::And(a, b) {
            5 if is_true(a.get()) => b;
            6 if is_true(b.get()) => a;
            7 if is_false(a.get()) => Form::False;
            8 if is_false(b.get()) => Form::False;
            9 if same(a.get(), b.get()) => a;
            10 if is_denied(b.get(), a.get()) => Form::False;
            11 if denies(&a, &b) => Form::False;
        }
        Form::Or(a, b) {
            12 if is_true(a.get()) => Form::True;
            13 if is_true(b.get()) => Form::True;
            14 if is_false(a.get()) => b;
            15 if is_false(b.get()) => a;
            16 if same(a.get(), b.get()) => a;
            17 if is_denied(b.get(), a.get()) => Form::True;
            18 if denies(&a, &b) => Form::True;
            19 if is_negation(a.get()) => Form::Imp(denied(a), b);
            20 if is_negation(b.get()) => Form::Imp(denied(b), a);
        }
        Form::Imp(a, b) {
            21 if is_true(a.get()) => b;
            22 if is_false(a.get()) => Form::True;
            23 if is_true(b.get()) => Form::True;
            24 if is_false(b.get()) => Form::Not(a);
            25 if same(a.get(), b.get()) => Form::True;
            26 if is_implication(b.get()) => joined(alloc, a, b)?;
            27 if is_negation(b.get()) => excluded(alloc, a, b)?;
        }
        Form::Iff(a, b) {
            28 if is_true(a.get()) => b;
            29 if is_true(b.get()) => a;
            30 if is_false(a.get()) => Form::Not(b);
            31 if is_false(b.get()) => Form::Not(a);
            32 if same(a.get(), b.get()) => Form::True;
        }
        Form::All(x, a) {
            33 if !is_free(a.get(), x.num) => a;
            36 if let Some(made) = solved_negation(alloc, x, a.get())? => made;
            37 if let Some(made) = solved_condition(alloc, x, a.get())? => made;
        }
        Form::Ex(x, a) {
            33 if !is_free(a.get(), x.num) => a;
            35 if let Some(made) = solved_some(alloc, x, a.get())? => made;
        }
        Form::All2(p, a) {
            34 if !is_free_pred(a.get(), p.num) => a;
        }
        Form::Ex2(p, a) {
            34 if !is_free_pred(a.get(), p.num) => a;
        }
        otherwise => Stepped::Settled
    }
}

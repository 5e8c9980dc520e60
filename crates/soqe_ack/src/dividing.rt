//! The conjuncts of a case as a try takes them: the conditions of the guards, and what becomes of each conjunct.
#![tactic(auto, unfolding(soqe_form::specs::Boxes::boxes))]

ghost use Rattle.std.specs.Prelude.{◌≡◌, IfOk};
ghost use Rattle.soqe_norm.specs.Rises.{has_sign as has_sign_of};
ghost use Rattle.soqe_ack.specs.Signs.{is_pos};
ghost use Rattle.soqe_ack.specs.Divides.{IsRole, is_in_way, Takes, IsDivision};

use crate::guarding::{Found, Parts, find};
use crate::steps::Sign;
use soqe_form::{Form, Pred, copy_boxed};
use soqe_norm::folding::or_next;
use soqe_norm::signs::signs;
use soqe_number::Mem;
use soqe_term::Vars;
use sqlite_items::Boxed;
use std::alloc::Global;

/// What a conjunct is to a try: a guard with the predicate, one without the predicate, one that gets the value, or one that
/// has the sign and is no guard.
#[derive(Drop)]
pub enum Role<'a> {
    Guard(Parts),
    Lacks(Boxed<Form>),
    Waits(&'a Form),
    InWay,
}

/// What becomes of a conjunct: this formula, or this formula with the value for the predicate.
#[derive(Drop)]
pub enum Share<'a> {
    Ready(Boxed<Form>),
    Waits(&'a Form),
}

/// The conditions of the guards by `|`, none where there are no guards, and what becomes of each conjunct.
#[derive(Drop)]
pub struct Divided<'a> {
    pub condition: Option<Boxed<Form>>,
    pub shares: Vec<Share<'a>>,
}

/// The conjuncts divided, or none where one has the sign and is no guard. A conjunct that gets the value is not copied.
pub(crate) fn divide<'a>(
    alloc: Global,
    conj: &'a [Boxed<Form>],
    pred: &Pred,
    sign: Sign,
    params: &Vars,
) -> Mem<Option<Divided<'a>>>
    ensures { IfOk result (λ r. IsDivision (is_pos sign) pred.now params.now conj.now r) }
{
    let mut divided = Divided {
        condition: None,
        shares: Vec::new(alloc),
    };
    for form in conj {
        let role = role_of(alloc, form, pred, sign, params)?;
        if stands_in_way(&role) {
            return Ok(None);
        }
        divided = take(alloc, divided, role)?;
    }
    Ok(Some(divided))
}

/// What the conjunct is to the try.
fn role_of<'a>(
    alloc: Global,
    form: &'a Boxed<Form>,
    pred: &Pred,
    sign: Sign,
    params: &Vars,
) -> Mem<Role<'a>>
    ensures { IfOk result (λ r. IsRole (is_pos sign) pred.now params.now form.now r) }
{
    match find(alloc, form.get(), pred, sign, params)? {
        Found::Lacking => {
            let form = copy_boxed(alloc, form)?;
            Ok(Role::Lacks(form))
        }
        Found::Parts(parts) => Ok(Role::Guard(parts)),
        Found::NoGuard => {
            if has_sign(form.get(), pred, sign) {
                return Ok(Role::InWay);
            }
            Ok(Role::Waits(form.get()))
        }
    }
}

/// Whether the predicate has an occurrence of the sign.
fn has_sign(form: &Form, pred: &Pred, sign: Sign) -> bool
    ensures { result ≡ has_sign_of (is_pos sign) pred.now form.now }
{
    let found = signs(form, pred);
    match sign {
        Sign::Pos => found.pos,
        Sign::Neg => found.neg,
    }
}

/// Whether the conjunct has the sign and is no guard.
fn stands_in_way(role: &Role<'_>) -> bool
    ensures { result ≡ is_in_way role.now }
{
    match role {
        Role::Guard(_) => false,
        Role::Lacks(_) => false,
        Role::Waits(_) => false,
        Role::InWay => true,
    }
}

/// One more conjunct.
fn take<'a>(alloc: Global, divided: Divided<'a>, role: Role<'a>) -> Mem<Divided<'a>>
    ensures { IfOk result (λ r. Takes divided.entry role.entry r) }
{
    let Divided { condition, shares } = divided;
    let mut shares = shares;
    match role {
        Role::Guard(parts) => {
            let made = or_next(alloc, condition, parts.cond)?;
            shares.push(Share::Ready(parts.rest))?;
            Ok(Divided {
                condition: Some(made),
                shares,
            })
        }
        Role::Lacks(form) => {
            shares.push(Share::Ready(form))?;
            Ok(Divided { condition, shares })
        }
        Role::Waits(form) => {
            shares.push(Share::Waits(form))?;
            Ok(Divided { condition, shares })
        }
        Role::InWay => Ok(Divided { condition, shares }),
    }
}

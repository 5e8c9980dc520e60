//! The tables by which a formula by itself is read, and what they say outside all binders.
ghost use Rattle.std.specs.Prelude.{◌≡◌, map, IfOk};
ghost use Rattle.soqe_signature.specs.Scope.{sort_among, sorts_among};
ghost use Rattle.soqe_form.specs.declared.form.PVar.{PVar};
ghost use Rattle.soqe_term.specs.declared.term.Var.{Var as OneVar};
ghost use Rattle.soqe_text.specs.Lookups.{ByNumber, places};

use crate::known::{Known, put};
use crate::scope::Scope;
use indexmap::IndexMap;
use soqe_form::{PVar, PVars};
use soqe_number::{Mem, Sorts};
use soqe_signature::{Signature, SkolemSigs};
use soqe_term::{Var, Vars};
use std::alloc::Global;

/// The declarations and names of a problem, Skolem functions, and the free variables and free bound predicates.
#[derive(Drop)]
pub(crate) struct FormTables<'a> {
    pub sig: &'a Signature,
    pub skolems: &'a SkolemSigs,
    pub free: &'a Vars,
    pub preds: &'a PVars,
}

/// The numbers of the free variables. They come in from the last on, since the first counts.
pub(crate) fn variables(alloc: Global, free: &[Var]) -> Mem<Scope>
    ensures { IfOk result (λ scope. scope ≡ map (λ (x : OneVar). x.num) free.now) }
{
    let mut scope = Scope::new(alloc);
    let count = free.len();
    for n in 0..count {
        let x = &free[count - 1 - n];
        scope.enter(x.num)?;
    }
    Ok(scope)
}

/// The numbers of the free bound predicates.
pub(crate) fn bound_preds(alloc: Global, preds: &[PVar]) -> Mem<Scope>
    ensures { IfOk result (λ scope. scope ≡ map (λ (p : PVar). p.num) preds.now) }
{
    let mut scope = Scope::new(alloc);
    let count = preds.len();
    for n in 0..count {
        let p = &preds[count - 1 - n];
        scope.enter(p.num)?;
    }
    Ok(scope)
}

/// The sorts of the free variables.
pub(crate) fn variable_sorts(alloc: Global, free: &[Var]) -> Mem<Known<u32>>
    ensures { IfOk result (λ sorts. places sorts ≡ ByNumber (sort_among free.now)) }
{
    let mut sorts = Known::Mapped(IndexMap::new(alloc));
    let count = free.len();
    for n in 0..count {
        let x = &free[count - 1 - n];
        put(&mut sorts, x.num, Some(x.sort))?;
    }
    Ok(sorts)
}

/// The argument sorts of the free bound predicates.
pub(crate) fn pred_sorts(alloc: Global, preds: &[PVar]) -> Mem<Known<Sorts>>
    ensures { IfOk result (λ sorts. places sorts ≡ ByNumber (sorts_among preds.now)) }
{
    let mut sorts = Known::Mapped(IndexMap::new(alloc));
    let count = preds.len();
    for n in 0..count {
        let p = &preds[count - 1 - n];
        let args = p.args.copy(alloc)?;
        put(&mut sorts, p.num, Some(args))?;
    }
    Ok(sorts)
}

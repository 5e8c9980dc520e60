//! Simplified formulas, and the numbers that their binders keep free.
ghost use Rattle.std.specs.Prelude.{◌≡◌, map, IfOk};
ghost use Rattle.soqe_deriv.specs.Valid.{kept as kept_of, simplified as simplified_of};

use soqe_form::Form;
use soqe_number::{Mem, Nums};
use soqe_simp::simplify_owned;
use soqe_term::Var;
use soqe_text::Problem;
use soqe_tidy::tidy_owned;
use sqlite_items::Boxed;
use std::alloc::Global;

/// The numbers of a problem's declared variables.
pub(crate) fn kept(alloc: Global, problem: &Problem) -> Mem<Nums>
    ensures { IfOk result (λ keep. keep ≡ kept_of problem.now) }
{
    match problem {
        Problem::Elim { sig, .. } => {
            let vars = sig.free(alloc)?;
            numbers(alloc, vars.as_slice())
        }
    }
}

/// The numbers of variables.
#[tactic(auto, using(std::proofs::Common::append_assoc))]
fn numbers(alloc: Global, vars: &[Var]) -> Mem<Nums>
    ensures { IfOk result (λ nums. nums ≡ map (λ x. x.num) vars.now) }
{
    let mut nums = Nums::new(alloc);
    for x in vars {
        nums.push(x.num)?;
    }
    Ok(nums)
}

/// The formula made simple, then tidy. It is moved.
pub(crate) fn simplified(alloc: Global, form: Boxed<Form>, keep: &Nums) -> Mem<Boxed<Form>>
    ensures { IfOk result (λ r. r ≡ simplified_of keep.now form) }
{
    let simple = simplify_owned(alloc, form)?;
    tidy_owned(alloc, simple, keep)
}

//! Substitution and renaming in formulas written by hand.
ghost use Rattle.std.specs.Prelude.{◌≡◌};

use crate::notation::{formula, is_spelled};
use soqe_form::Form;
use soqe_subst::{rename, rename_pred, subst};
use soqe_term::{Term, Var};
use sqlite_items::Boxed;
use std::test::Fail;

fn var(num: u64) -> Var
    ensures { result.sort ≡ 0 }
{
    Var { num, sort: 0 }
}

#[test]
fn a_binder_is_renamed_where_it_would_catch(rt: HostRuntime) -> Result<(), Fail> {
    let alloc = rt.alloc();
    let form = formula(alloc, b"A1=01")?;
    // The variable that replaces x0, and the result.
    let cases: [(u64, &[u8]); 2] = [(1, b"A2=12"), (3, b"A1=31")];
    for (num, wanted) in cases {
        let result = subst(alloc, form.get(), var(0), &Term::Var(var(num)))?;
        assert!(rt; is_spelled(alloc, result.get(), wanted)?);
    }
    Ok(())
}

#[test]
fn free_variables_alone_are_renamed(rt: HostRuntime) -> Result<(), Fail> {
    let alloc = rt.alloc();
    let form = formula(alloc, b"A1=01")?;
    // The variable that becomes x4, and the result.
    let cases: [(u64, &[u8]); 2] = [(0, b"A1=41"), (1, b"A1=01")];
    for (num, wanted) in cases {
        let result: Boxed<Form> = Boxed::new(alloc, rename(alloc, form.get(), num, var(4))?)?;
        assert!(rt; is_spelled(alloc, result.get(), wanted)?);
    }
    Ok(())
}

#[test]
fn free_occurrences_alone_are_renamed(rt: HostRuntime) -> Result<(), Fail> {
    let alloc = rt.alloc();
    let form = formula(alloc, b"&p1X2p2")?;
    // The predicate that becomes the predicate 3, and the result.
    let cases: [(u64, &[u8]); 2] = [(1, b"&p3X2p2"), (2, b"&p1X2p2")];
    for (num, wanted) in cases {
        let result: Boxed<Form> = Boxed::new(alloc, rename_pred(alloc, form.get(), num, 3)?)?;
        assert!(rt; is_spelled(alloc, result.get(), wanted)?);
    }
    Ok(())
}

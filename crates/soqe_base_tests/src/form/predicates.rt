//! Free predicates of a formula written by hand.
use crate::notation::formula;
use soqe_form::{Pred, has_free_pred, mark_preds};
use soqe_number::Marks;
use std::test::Fail;

#[test]
fn a_bound_predicate_is_not_free(rt: HostRuntime) -> Result<(), Fail> {
    let alloc = rt.alloc();
    let form = formula(alloc, b"&p1X2p2")?;
    let cases = [
        (Pred::Bound(1), true),
        (Pred::Bound(2), false),
        (Pred::Decl(1), false),
    ];
    for (pred, due) in cases {
        assert!(rt; has_free_pred(form.get(), &pred) == due);
    }
    Ok(())
}

#[test]
fn the_numbers_of_predicates_are_marked(rt: HostRuntime) -> Result<(), Fail> {
    let alloc = rt.alloc();
    let form = formula(alloc, b"&p1X2p2")?;
    let mut marks = Marks::new(alloc);
    mark_preds(form.get(), &mut marks)?;
    assert!(rt; !marks.has(0) && marks.has(1) && marks.has(2) && !marks.has(3));
    Ok(())
}

//! Copies, first blocks, replaced parts, lists and quantifiers of formulas written by hand, and counts.
mod exchanged;
mod predicates;
mod sameness;
mod variables;

use crate::notation::{formula, is_spelled};
use soqe_form::{
    Block, Form, Forms, Quantifier, copy_boxed, find_block, first_block, quantified, replace_at,
};
use soqe_number::{Counts, Mem, Nums, sum_of_counts};
use soqe_term::Var;
use sqlite_items::Boxed;
use std::alloc::Global;
use std::test::Fail;

/// A formula whose root is an equivalence.
const MIXED: &[u8] = b"~A0>=00X00U10-p0E0T";

const TWO_BLOCKS: &[u8] = b"|&FX00TX10p0";

/// Whether this is the block.
fn is_block(
    alloc: Global,
    block: &Option<Block>,
    place: &[u64],
    exists: bool,
    pred: u64,
    body: &[u8],
) -> Mem<bool> {
    match block {
        None => Ok(false),
        Some(block) => {
            let is_body = is_spelled(alloc, block.body.get(), body)?;
            Ok(
                block.place.as_slice() == place
                    && block.exists == exists
                    && block.pred.num == pred
                    && is_body,
            )
        }
    }
}

/// Whether this is the formula, or none where none is due.
fn is_due(alloc: Global, form: &Option<Boxed<Form>>, due: Option<&[u8]>) -> Mem<bool> {
    match form {
        None => Ok(due.is_none()),
        Some(form) => match due {
            None => Ok(false),
            Some(text) => is_spelled(alloc, form.get(), text),
        },
    }
}

#[test]
fn a_copy_has_the_same_nodes(rt: HostRuntime) -> Result<(), Fail> {
    let alloc = rt.alloc();
    let form = formula(alloc, MIXED)?;
    let copy = copy_boxed(alloc, &form)?;
    assert!(rt; is_spelled(alloc, copy.get(), MIXED)?);
    Ok(())
}

#[test]
fn the_first_block_is_innermost(rt: HostRuntime) -> Result<(), Fail> {
    let alloc = rt.alloc();
    let form = formula(alloc, MIXED)?;
    let block = first_block(alloc, form.get())?;
    assert!(rt; is_block(alloc, &block, &[0, 0, 1, 0], false, 1, b"-p0")?);
    Ok(())
}

#[test]
fn the_first_block_is_leftmost(rt: HostRuntime) -> Result<(), Fail> {
    let alloc = rt.alloc();
    let form = formula(alloc, TWO_BLOCKS)?;
    let block = first_block(alloc, form.get())?;
    assert!(rt; is_block(alloc, &block, &[0, 1], true, 0, b"T")?);
    Ok(())
}

#[test]
fn a_copied_block_is_the_block(rt: HostRuntime) -> Result<(), Fail> {
    let alloc = rt.alloc();
    let form = formula(alloc, TWO_BLOCKS)?;
    let Some(block) = first_block(alloc, form.get())? else {
        panic!(rt; "no block is found");
    };
    let copy = Some(block.copy(alloc)?);
    assert!(rt; is_block(alloc, &copy, &[0, 1], true, 0, b"T")?);
    Ok(())
}

#[test]
fn the_first_block_is_found_where_it_stands(rt: HostRuntime) -> Result<(), Fail> {
    let alloc = rt.alloc();
    let form = formula(alloc, TWO_BLOCKS)?;
    let Some(block) = find_block(alloc, form.get())? else {
        panic!(rt; "no block is found");
    };
    assert_eq!(rt; block.place.as_slice(), [0, 1].as_slice());
    assert_eq!(rt; (block.exists, block.pred.num), (true, 0));
    assert!(rt; is_spelled(alloc, block.body, b"T")?);
    let truth = formula(alloc, b"T")?;
    assert!(rt; find_block(alloc, truth.get())?.is_none());
    Ok(())
}

#[test]
fn a_part_is_replaced_at_its_place_alone(rt: HostRuntime) -> Result<(), Fail> {
    let alloc = rt.alloc();
    let blocks = formula(alloc, TWO_BLOCKS)?;
    let constant = formula(alloc, b"T")?;
    let by = formula(alloc, b"F")?;
    let cases: [(&Form, &[u64], Option<&[u8]>); 8] = [
        (blocks.get(), &[], Some(b"F")),
        (blocks.get(), &[1], Some(b"|&FX00TF")),
        (blocks.get(), &[0, 0], Some(TWO_BLOCKS)),
        (blocks.get(), &[0, 1, 0], Some(b"|&FX00FX10p0")),
        (blocks.get(), &[2], None),
        (blocks.get(), &[0, 0, 0], None),
        (constant.get(), &[], Some(b"F")),
        (constant.get(), &[0], None),
    ];
    for (form, place, text) in cases {
        let place = Nums::from_vec(place.to_vec(alloc)?);
        let form = replace_at(alloc, form, &place, by.get())?;
        assert!(rt; is_due(alloc, &form, text)?);
    }
    Ok(())
}

/// Whether the list has these formulas.
fn are_listed(alloc: Global, forms: &Forms, texts: &[&[u8]]) -> Mem<bool> {
    let mut listed = forms.len() == texts.len();
    for (form, text) in forms.as_slice().iter().zip(texts) {
        let is_next = is_spelled(alloc, form.get(), text)?;
        listed = listed && is_next;
    }
    Ok(listed)
}

#[test]
fn a_list_of_formulas_is_copied(rt: HostRuntime) -> Result<(), Fail> {
    let alloc = rt.alloc();
    let mut forms = Forms::new(alloc);
    forms.push(formula(alloc, b"T")?)?;
    forms.push(formula(alloc, TWO_BLOCKS)?)?;
    let copy = forms.copy(alloc)?;
    forms.push(formula(alloc, b"F")?)?;
    assert!(rt; are_listed(alloc, &copy, &[b"T", TWO_BLOCKS])?);
    Ok(())
}

#[test]
fn a_list_of_formulas_is_taken_apart(rt: HostRuntime) -> Result<(), Fail> {
    let alloc = rt.alloc();
    let mut forms = Forms::new(alloc);
    forms.push(formula(alloc, b"T")?)?;
    forms.push(formula(alloc, TWO_BLOCKS)?)?;
    let mut items = forms.into_vec();
    let last = items.pop();
    assert!(rt; is_due(alloc, &last, Some(TWO_BLOCKS))?);
    assert!(rt; items.len() == 1);
    Ok(())
}

#[test]
fn a_quantifier_stands_in_front(rt: HostRuntime) -> Result<(), Fail> {
    let alloc = rt.alloc();
    let cases: [(bool, &[u8]); 2] = [(true, b"A1T"), (false, b"E1T")];
    for (universal, text) in cases {
        let quantifier = Quantifier {
            universal,
            variable: Var { num: 1, sort: 0 },
        };
        let form = quantified(alloc, quantifier, formula(alloc, b"T")?)?;
        assert!(rt; is_spelled(alloc, form.get(), text)?);
    }
    Ok(())
}

#[test]
fn counts_add_up(rt: HostRuntime) -> Result<(), Fail> {
    let mut counts = Counts::new(rt.alloc());
    counts.set(3, 2)?;
    counts.add(3, 5)?;
    counts.add(4, 1)?;
    assert!(rt; counts.of(3) == 7 && counts.of(4) == 1 && counts.of(5) == 0);
    assert!(rt; sum_of_counts(2, 3)? == 5);
    assert!(rt; sum_of_counts(u64::MAX, 1).is_err());
    Ok(())
}

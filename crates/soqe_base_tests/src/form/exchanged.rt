//! A part exchanged in a formula that is owned, and in one that is lent.
use super::TWO_BLOCKS;
use crate::notation::{formula, is_spelled};
use soqe_form::{put_beside, put_in};
use soqe_number::Mem;
use std::alloc::Global;
use std::test::Fail;

fn is_put(alloc: Global, place: &[u64], text: &[u8]) -> Mem<bool> {
    let form = formula(alloc, TWO_BLOCKS)?;
    let by = formula(alloc, b"F")?;
    let beside = put_beside(alloc, form.get(), place, by)?;
    let by = formula(alloc, b"F")?;
    let form = put_in(alloc, form, place, by)?;
    Ok(is_spelled(alloc, beside.get(), text)? && is_spelled(alloc, form.get(), text)?)
}

#[test]
fn a_part_is_put_in_at_its_place_alone(rt: HostRuntime) -> Result<(), Fail> {
    let alloc = rt.alloc();
    let cases: [(&[u64], &[u8]); 4] = [
        (&[], b"F"),
        (&[1], b"|&FX00TF"),
        (&[0, 1], b"|&FFX10p0"),
        (&[0, 1, 0], b"|&FX00FX10p0"),
    ];
    for (place, text) in cases {
        assert!(rt; is_put(alloc, place, text)?);
    }
    Ok(())
}

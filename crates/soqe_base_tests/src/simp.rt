//! Rows of the simplifier and simple forms, of formulas written by hand.
use crate::notation::formula;
use soqe_form::same;
use soqe_number::Mem;
use soqe_simp::{RowTable, row_names, simplify, simplify_owned, step};
use std::alloc::Global;
use std::test::Fail;

/// Whether the step at the root is by this row, 0 for none, and gives this formula.
fn steps(alloc: Global, text: &[u8], row: u8, wanted: &[u8]) -> Mem<bool> {
    let f = formula(alloc, text)?;
    let g = formula(alloc, wanted)?;
    match step(alloc, f.get())? {
        None => Ok(row == 0),
        Some(made) => {
            let copy = made.copy(alloc)?;
            Ok(copy.row == row && same(copy.form.get(), g.get()))
        }
    }
}

fn simplifies(alloc: Global, text: &[u8], wanted: &[u8]) -> Mem<bool> {
    let f = formula(alloc, text)?;
    let g = formula(alloc, wanted)?;
    let simple = simplify_owned(alloc, f)?;
    Ok(same(simple.get(), g.get()))
}

#[test]
fn applies_rows(rt: HostRuntime) -> Result<(), Fail> {
    let alloc = rt.alloc();
    let cases: [(&[u8], u8, &[u8]); 45] = [
        (b"-T", 1, b"F"),
        (b"-F", 2, b"T"),
        (b"--d0", 3, b"d0"),
        (b"=00", 4, b"T"),
        (b"&Td0", 5, b"d0"),
        (b"&d0T", 6, b"d0"),
        (b"&Fd0", 7, b"F"),
        (b"&d0F", 8, b"F"),
        (b"&d0d0", 9, b"d0"),
        (b"&d0-d0", 10, b"F"),
        (b"&-d0d0", 11, b"F"),
        (b"|Td0", 12, b"T"),
        (b"|d0T", 13, b"T"),
        (b"|Fd0", 14, b"d0"),
        (b"|d0F", 15, b"d0"),
        (b"|d0d0", 16, b"d0"),
        (b"|d0-d0", 17, b"T"),
        (b"|-d0d0", 18, b"T"),
        (b"|-d0d00", 19, b">d0d00"),
        (b"|d0-d00", 20, b">d00d0"),
        (b">Td0", 21, b"d0"),
        (b">Fd0", 22, b"T"),
        (b">d0T", 23, b"T"),
        (b">d0F", 24, b"-d0"),
        (b">d0d0", 25, b"T"),
        (b">d0>d00d01", 26, b">&d0d00d01"),
        (b">d0-d00", 27, b"-&d0d00"),
        (b"~Td0", 28, b"d0"),
        (b"~d0T", 29, b"d0"),
        (b"~Fd0", 30, b"-d0"),
        (b"~d0F", 31, b"-d0"),
        (b"~d0d0", 32, b"T"),
        (b"A0d01", 33, b"d01"),
        (b"X0d0", 34, b"d0"),
        (b"E0&=01d00", 35, b"&Td01"),
        (b"E0&d00=10", 35, b"&d01T"),
        (b"A0-&=01d00", 36, b"-&Td01"),
        (b"A0>=01d00", 37, b">Td01"),
        (b"A0>&=01d00d00", 37, b">&Td01d01"),
        (b"&d00d01", 0, b"T"),
        (b"E0d00", 0, b"T"),
        (b"U0p0", 0, b"T"),
        (b"&-Td0", 0, b"T"),
        (b"A0A1>=10d00", 0, b"T"),
        (b"E0&=00d00", 0, b"T"),
    ];
    for (text, row, wanted) in cases {
        assert!(rt; steps(alloc, text, row, wanted)?);
    }
    Ok(())
}

// Of several rows that apply the first one counts.
#[test]
fn applies_the_first_row(rt: HostRuntime) -> Result<(), Fail> {
    let alloc = rt.alloc();
    let cases: [(&[u8], u8, &[u8]); 17] = [
        (b"&TT", 5, b"T"),
        (b"&TF", 5, b"F"),
        (b"&FT", 6, b"F"),
        (b"&FF", 7, b"F"),
        (b"&-d0-d0", 9, b"-d0"),
        (b"|TF", 12, b"T"),
        (b"|FT", 13, b"T"),
        (b"|FF", 14, b"F"),
        (b"|-d0-d0", 16, b"-d0"),
        (b"|-d0-d00", 19, b">d0-d00"),
        (b">TF", 21, b"F"),
        (b">FF", 22, b"T"),
        (b"~TF", 28, b"F"),
        (b"~FT", 29, b"F"),
        (b"~FF", 30, b"-F"),
        (b"A0A0d00", 33, b"A0d00"),
        (b"X0X0p0", 34, b"X0p0"),
    ];
    for (text, row, wanted) in cases {
        assert!(rt; steps(alloc, text, row, wanted)?);
    }
    Ok(())
}

// No row applies at the root: to parts that are alike but not the same, to what stands in a part, or to an equation that does
// not say what the variable is.
#[test]
fn applies_no_row(rt: HostRuntime) -> Result<(), Fail> {
    let alloc = rt.alloc();
    let cases: [&[u8]; 24] = [
        b"T",
        b"F",
        b"d0",
        b"=01",
        b"-d0",
        b"|d00d01",
        b">d00d01",
        b"~d00d01",
        b"&d0-d00",
        b"&d0-T",
        b">>d0d0d0",
        b">-d0d00",
        b"~-d0d0",
        b"A0d00",
        b"A0A1d00",
        b"X0p0",
        b"A0=01",
        b"E0=00",
        b"E0-=01",
        b"E0|=01d00",
        b"E0E1&=01d00",
        b"A0A1-&=01d00",
        b"A0A1>=01d00",
        b"A0>d00=01",
    ];
    for text in cases {
        assert!(rt; steps(alloc, text, 0, b"T")?);
    }
    Ok(())
}

#[test]
fn makes_simple(rt: HostRuntime) -> Result<(), Fail> {
    let alloc = rt.alloc();
    let cases: [(&[u8], &[u8]); 22] = [
        (b"d0", b"d0"),
        (b"|-Td0", b"d0"),
        (b"-->d0>d00d01", b">&d0d00d01"),
        (b"E0&=01d00", b"d01"),
        (b"X0&&d0-d0d00", b"F"),
        (b"A0A1>=10d00", b"A0d00"),
        (b"|->d0d00-d01", b"-&>d0d00d01"),
        (b"|-d0--d0", b"T"),
        (b">-d0F", b"d0"),
        (b"~F-d0", b"d0"),
        (b">d0>d0d00", b">d0d00"),
        (b">d0-d0", b"-d0"),
        (b">d0->d00d01", b"-&d0>d00d01"),
        (b"U0|>>Td0d00d01", b"|>d0d00d01"),
        (b"|d0|-d00-d01", b">&d00d01d0"),
        (b">d0>d00>d01d02", b">&d0&d00d01d02"),
        (b">d0>d0d0", b"T"),
        (b"---T", b"F"),
        (b"E0&&=01d00d01", b"d01"),
        (b"A0-&=01d00", b"-d01"),
        (b"A0A1d0", b"d0"),
        (b"~-&d0&TTF", b"d0"),
    ];
    for (text, wanted) in cases {
        assert!(rt; simplifies(alloc, text, wanted)?);
    }
    Ok(())
}

/// Whether the lent formula is made simple, and is afterwards as it was.
fn simplifies_lent(alloc: Global, text: &[u8], wanted: &[u8]) -> Mem<bool> {
    let f = formula(alloc, text)?;
    let before = formula(alloc, text)?;
    let g = formula(alloc, wanted)?;
    let simple = simplify(alloc, f.get())?;
    Ok(same(simple.get(), g.get()) && same(f.get(), before.get()))
}

#[test]
fn makes_a_lent_formula_simple(rt: HostRuntime) -> Result<(), Fail> {
    let alloc = rt.alloc();
    let cases: [(&[u8], &[u8]); 6] = [
        (b"d0", b"d0"),
        (b"|-Td0", b"d0"),
        (b"E0&=01d00", b"d01"),
        (b"X0&&d0-d0d00", b"F"),
        (b"A0A1>=10d00", b"A0d00"),
        (b"A0A1d0", b"d0"),
    ];
    for (text, wanted) in cases {
        assert!(rt; simplifies_lent(alloc, text, wanted)?);
    }
    Ok(())
}

// Chains of which none, an inner, a middle and an outer binder goes, of one kind and mixed, with one name twice, and with an
// equation whose term has a variable that was passed.
#[test]
fn makes_chains_simple(rt: HostRuntime) -> Result<(), Fail> {
    let alloc = rt.alloc();
    let cases: [(&[u8], &[u8]); 18] = [
        (b"E0E1E2E3&&&d00d01d02d03", b"E0E1E2E3&&&d00d01d02d03"),
        (b"E0E1E2E3&&d00d01d02", b"E0E1E2&&d00d01d02"),
        (b"A0E1A2E3d03", b"E3d03"),
        (b"E0A1E2A3&d00d02", b"E0E2&d00d02"),
        (b"E0E1E0E1&d00d01", b"E0E1&d00d01"),
        (b"A0A1E0E1E1d0", b"d0"),
        (b"E0E1E2E3&=23&d00&d01d03", b"E0E1E2&d00&d01d02"),
        (b"E0E2E1E3&&&=12d03d01d00", b"E0E2E3&&d03d02d00"),
        (b"E0E2E3E3&&=0f1d02d03", b"E2E3&d02d03"),
        (b"E0E2E0E3&&=0f1d02d03", b"E2E3&d02d03"),
        (b"E2E3E0E1&&&=0f1d00d02d03", b"E2E3E0E1&&&=0f1d00d02d03"),
        (b"E2E3E1E0&&=0f1d02d03", b"E2E3&d02d03"),
        (b"E2E3E0A1&&&=01d00d02d03", b"E2E3E0A1&&&=01d00d02d03"),
        (b"A0A1A2A3-&&=0f1d02d03", b"A0A1A2A3-&&=0f1d02d03"),
        (b"A1A0A2A3-&&=0f1d02d03", b"A2A3-&d02d03"),
        (b"A1A0A2A3>&=0f1d02d03", b"A2A3>d02d03"),
        (b"E1E0A2A3&&=0f1d02d03", b"E1E0A2A3&&=0f1d02d03"),
        (b"A1A0E2E3>&=0f1d02d03", b"A1A0E2E3>&=0f1d02d03"),
    ];
    for (text, wanted) in cases {
        assert!(rt; simplifies(alloc, text, wanted)?);
    }
    Ok(())
}

#[test]
fn names_rows(rt: HostRuntime) -> Result<(), Fail> {
    let table = row_names();
    assert!(rt; table.name(0) == Some("row1"));
    assert!(rt; table.name(36) == Some("row37"));
    assert!(rt; table.name(37).is_none());
    assert!(rt; table.code("row1") == Some(0));
    assert!(rt; table.code("row37") == Some(36));
    assert!(rt; table.code("row38").is_none());
    assert!(rt; table.code("").is_none());
    let empty: RowTable<0> = RowTable { names: &[] };
    assert!(rt; empty.name(0).is_none() && empty.code("row1").is_none());
    Ok(())
}

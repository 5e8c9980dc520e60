//! Declarations and look-ups.
use soqe_number::Sorts;
use soqe_signature::{DeclareFault, Kind, NameKind, Signature};
use soqe_term::Var;
use std::alloc::Global;

fn sorts(alloc: Global, sorts: &[u32]) -> Sorts {
    match sorts.to_vec(alloc) {
        Ok(sorts) => Sorts::from_vec(sorts),
        Err(_) => Sorts::new(alloc),
    }
}

fn declared(signature: &mut Signature, name: &str, kind: Kind) -> Result<u64, DeclareFault> {
    if signature.has_room() {
        signature.declare(name, kind)
    } else {
        Err(DeclareFault::Memory)
    }
}

fn declares(signature: &mut Signature, name: &str, kind: Kind, num: u64) -> bool {
    declared(signature, name, kind) == Ok(num)
}

fn fills_symbols(alloc: Global, signature: &mut Signature) -> bool {
    let args = sorts(alloc, &[0, 1]);
    let ones = sorts(alloc, &[1]);
    declares(signature, "person", Kind::Sort, 1)
        && declares(signature, "f", Kind::Fun { args, result: 1 }, 0)
        && declares(signature, "P", Kind::Pred { args: ones }, 0)
}

fn fills_names(signature: &mut Signature) -> bool {
    declares(signature, "x", Kind::Free { sort: 1 }, 0)
        && declares(signature, "y", Kind::VarName, 1)
        && declares(signature, "z", Kind::Free { sort: 0 }, 2)
        && declares(signature, "Q", Kind::PredName, 0)
        && declares(signature, "r", Kind::Rel, 0)
        && declares(signature, "p", Kind::Prop, 0)
}

fn is_found(found: Option<(&Kind, u64)>, numbering: NameKind, num: u64) -> bool {
    match found {
        Some((kind, number)) => kind.numbering() == numbering && number == num,
        None => false,
    }
}

fn is_named(signature: &Signature, numbering: NameKind, num: u64, name: &str) -> bool {
    match signature.name_of(numbering, num) {
        Some(found) => found == name,
        None => false,
    }
}

/// Whether the name has the number, and the number the name.
fn finds(signature: &Signature, name: &str, numbering: NameKind, num: u64) -> bool {
    is_found(signature.lookup(name), numbering, num)
        && is_found(signature.lookup_bytes(name.as_bytes()), numbering, num)
        && is_named(signature, numbering, num, name)
}

fn finds_all(signature: &Signature) -> bool {
    for (name, numbering, num) in [
        ("obj", NameKind::Sort, 0),
        ("person", NameKind::Sort, 1),
        ("f", NameKind::Fun, 0),
        ("P", NameKind::Pred, 0),
        ("x", NameKind::Variable, 0),
        ("y", NameKind::Variable, 1),
        ("z", NameKind::Variable, 2),
        ("Q", NameKind::BoundPred, 0),
        ("r", NameKind::Rel, 0),
        ("p", NameKind::Prop, 0),
    ] {
        if !finds(signature, name, numbering, num) {
            return false;
        }
    }
    true
}

fn lacks(signature: &Signature) -> bool {
    signature.lookup("q").is_none()
        && signature.lookup_bytes(b"\xff").is_none()
        && signature.name_of(NameKind::Sort, 2).is_none()
        && signature.declaration(10).is_none()
}

fn has_counts(signature: &Signature) -> bool {
    signature.len() == 10
        && signature.count(NameKind::Variable) == 3
        && signature.count(NameKind::Rel) == 1
}

fn has_fun(signature: &Signature) -> bool {
    match signature.fun_sig(0) {
        Some((args, result)) => args.as_slice() == [0, 1].as_slice() && result == 1,
        None => false,
    }
}

fn has_pred(signature: &Signature) -> bool {
    match signature.pred_sig(0) {
        Some(args) => args.as_slice() == [1].as_slice(),
        None => false,
    }
}

fn has_sorts(signature: &Signature) -> bool {
    has_fun(signature)
        && has_pred(signature)
        && signature.fun_sig(1).is_none()
        && signature.pred_sig(1).is_none()
        && signature.free_sort(0) == Some(1)
        && signature.free_sort(1).is_none()
}

fn has_free(alloc: Global, signature: &Signature) -> bool {
    let free = [Var { num: 0, sort: 1 }, Var { num: 2, sort: 0 }];
    match signature.free(alloc) {
        Ok(vars) => vars.as_slice() == free.as_slice(),
        Err(_) => false,
    }
}

fn is_pred_of_persons(kind: &Kind) -> bool {
    match kind {
        Kind::Pred { args } => args.as_slice() == [1].as_slice(),
        _ => false,
    }
}

/// Whether the declaration of `P` stands at the place 3, and its kind can be copied.
fn has_declaration(alloc: Global, signature: &Signature) -> bool {
    match signature.declaration(3) {
        Some((name, kind)) => name == "P" && copies_kind(alloc, kind),
        None => false,
    }
}

fn copies_kind(alloc: Global, kind: &Kind) -> bool {
    match kind.copy(alloc) {
        Ok(copy) => is_pred_of_persons(&copy),
        Err(_) => false,
    }
}

fn is_example(alloc: Global, signature: &Signature) -> bool {
    finds_all(signature)
        && lacks(signature)
        && has_counts(signature)
        && has_sorts(signature)
        && has_free(alloc, signature)
        && has_declaration(alloc, signature)
}

/// Whether a copy of the signature says what the declarations say.
fn is_copied(alloc: Global, signature: &Signature) -> bool {
    match signature.copy(alloc) {
        Ok(copy) => is_example(alloc, &copy),
        Err(_) => false,
    }
}

fn reads_back(alloc: Global) -> bool {
    match Signature::new(alloc) {
        Ok(mut signature) => fills_symbols(alloc, &mut signature)
            && fills_names(&mut signature)
            && is_copied(alloc, &signature),
        Err(_) => false,
    }
}

/// Whether the declaration is refused for this cause, and leaves the one sort that is there.
fn refuses(signature: &mut Signature, name: &str, kind: Kind, fault: DeclareFault) -> bool {
    declared(signature, name, kind) == Err(fault) && signature.len() == 1
}

fn refuses_names(signature: &mut Signature) -> bool {
    for (name, sort, fault) in [
        ("obj", 0, DeclareFault::Duplicate(0)),
        ("obj", 3, DeclareFault::Duplicate(0)),
        ("all", 3, DeclareFault::Reserved),
        ("_p0", 0, DeclareFault::Reserved),
        ("0", 0, DeclareFault::Reserved),
        ("", 0, DeclareFault::Reserved),
        ("x", 1, DeclareFault::UnknownSort(1)),
    ] {
        if !refuses(signature, name, Kind::Free { sort }, fault) {
            return false;
        }
    }
    true
}

/// Whether a function of these sorts is refused for the sort.
fn refuses_sort(
    alloc: Global,
    signature: &mut Signature,
    args: &[u32],
    value: u32,
    sort: u32,
) -> bool {
    let args = sorts(alloc, args);
    refuses(
        signature,
        "f",
        Kind::Fun {
            args,
            result: value,
        },
        DeclareFault::UnknownSort(sort),
    )
}

fn refuses_sorts(alloc: Global, signature: &mut Signature) -> bool {
    let ones = sorts(alloc, &[0, 2]);
    refuses_sort(alloc, signature, &[0, 5, 4], 3, 5)
        && refuses_sort(alloc, signature, &[0, 0], 3, 3)
        && refuses(
            signature,
            "P",
            Kind::Pred { args: ones },
            DeclareFault::UnknownSort(2),
        )
        && declares(signature, "f", Kind::Free { sort: 0 }, 0)
}

fn refuses_all(alloc: Global) -> bool {
    match Signature::new(alloc) {
        Ok(mut signature) => refuses_names(&mut signature) && refuses_sorts(alloc, &mut signature),
        Err(_) => false,
    }
}

fn is_told(alloc: Global) -> bool {
    match format!(in alloc; "{}", DeclareFault::Duplicate(7)) {
        Ok(text) => text.as_str() == "the name is declared already, at place 7",
        Err(_) => false,
    }
}

#[test]
fn names_have_numbers_and_numbers_have_names(rt: HostRuntime) {
    assert!(rt; reads_back(rt.alloc()));
}

#[test]
fn declarations_are_refused(rt: HostRuntime) {
    assert!(rt; refuses_all(rt.alloc()));
}

#[test]
fn faults_are_told(rt: HostRuntime) {
    assert!(rt; is_told(rt.alloc()));
}

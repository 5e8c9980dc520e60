//! Whole runs on sources and sinks in memory: texts, statuses, failed calls and limits.
use super::*;
use soqe_io::{Failed, MemSink, MemSource, NullSink, RepeatSource, Source};
use std::alloc::Global;
use std::test::Fail;

// A problem of 52 bytes.
const PROBLEM: &[u8] = b"pred Q(obj); goal ex2 P(obj). all x. (Q(x) -> P(x));";

// The derivation of its goal, of 180 bytes: P occurs without negative sign.
const DERIVATION: &[u8] = b"soqe 1 elim
pred Q(obj);
goal ex2 P(obj). all x. (Q(x) -> P(x));
start ex2 P(obj). all x. (Q(x) -> P(x))
block sign P
replace true all x. (Q(x) -> true)
close true
result true
end
";

// A set that holds every element and misses every element: P occurs with both signs.
const MIXED: &[u8] = b"soqe 1 elim
goal ex2 P(obj). (all x. P(x) & all x. ~P(x));
start ex2 P(obj). (all x. P(x) & all x. ~P(x))
block sign P
stopped mixed 1 2
end
";

// Every set holds every element: the empty set is the one to look at.
const UNIVERSAL: &[u8] = b"soqe 1 elim
goal all2 P(obj). all x. P(x);
start all2 P(obj). all x. P(x)
block sign P
replace false all x. false
close false
result false
end
";

// A problem by cases, and its derivation: two cases of the normal form.
const TWO_CASES: &[u8] = b"sort s;
sort t;
pred Q(t, t);
var k:obj;
fun a:obj;
pred R(obj);
var y:s;
goal ex2 Y(obj). (R(k) -> ex x:t. ~Y(k));
";

const TWO_CASES_DERIVATION: &[u8] = b"soqe 1 elim
sort s;
sort t;
pred Q(t, t);
var k:obj;
fun a:obj;
pred R(obj);
var y:s;
goal ex2 Y(obj). (R(k) -> ex x:t. ~Y(k));
start ex2 Y(obj). ~(R(k) & Y(k))
block dls Y
nnf ~R(k) | ~Y(k)
case 1 ~R(k)
ack pos Y(x) := false
gives ~R(k)
case 2 ~Y(k)
ack pos Y(x) := false
gives ~false
close true
result true
end
";

// A set that is closed under a step: no guard says which one.
const LOST: &[u8] = b"var k:obj;
pred Q(obj);
fun f(obj):obj;
pred R(obj);
var y:obj;
fun a:obj;
goal ex2 X(obj, obj). all z. (X(y, k) -> X(y, z));
";

const LOST_DERIVATION: &[u8] = b"soqe 1 elim
var k:obj;
pred Q(obj);
fun f(obj):obj;
pred R(obj);
var y:obj;
fun a:obj;
goal ex2 X(obj, obj). all z. (X(y, k) -> X(y, z));
start ex2 X(obj, obj). all z. (X(y, k) -> X(y, z))
block dls X
nnf all z. (~X(y, k) | X(y, z))
case 1 all z. (~X(y, k) | X(y, z))
stopped notreached 1
end
";

// A goal without quantified predicates is its own result.
const TRUE: &[u8] = b"soqe 1 elim
goal true;
start true
result true
end
";

fn words_of(alloc: Global, line: &[&str]) -> Result<Vec<String>, Fail> {
    let mut words = Vec::new(alloc);
    for word in line {
        words.push(String::from_str(alloc, word)?)?;
    }
    Ok(words)
}

// Runs by signs on a source of one byte a call and a sink of ten bytes a call that fail at these calls, and gives the status
// and what the sink took.
fn outcome(
    alloc: Global,
    input: &[u8],
    source_fails: &[u64],
    sink_fails: &[u64],
) -> Result<(Status, Vec<u8>), Fail> {
    outcome_by(alloc, "sign", input, source_fails, sink_fails)
}

// The same by a method.
fn outcome_by(
    alloc: Global,
    method: &str,
    input: &[u8],
    source_fails: &[u64],
    sink_fails: &[u64],
) -> Result<(Status, Vec<u8>), Fail> {
    let words = words_of(alloc, &["soqe", "elim", "--method", method])?;
    let mut source = MemSource::new(input.to_vec(alloc)?, 1, source_fails.to_vec(alloc)?);
    let mut sink = MemSink::new(alloc, 1000, 10, sink_fails.to_vec(alloc)?)?;
    let status = run(alloc, &words, &mut source, &mut sink);
    Ok((status, sink.bytes().to_vec(alloc)?))
}

#[test]
fn an_answer_is_written_whole(rt: HostRuntime) -> Result<(), Fail> {
    let cases: [(&[u8], Status, &[u8]); 14] = [
        (PROBLEM, Status::Done, DERIVATION),
        (
            b"goal ex2 P(obj). (all x. P(x) & all x. ~P(x));",
            Status::Mixed,
            MIXED,
        ),
        (b"goal all2 P(obj). all x. P(x);", Status::Done, UNIVERSAL),
        // Nothing is to be eliminated.
        (b"goal true;", Status::Done, TRUE),
        // A name without declaration, and one bound round another place.
        (b"goal ex2 P(obj). P(x);", Status::Names, b"names at 19\n"),
        (b"goal (ex2 P. P) & P;", Status::Names, b"names at 18\n"),
        // A predicate with too many arguments.
        (
            b"var x: obj; goal ex2 P. P(x);",
            Status::Sorts,
            b"sorts at 24\n",
        ),
        // No problem goes on from these places: the end, a byte that begins no token, and a token out of place.
        (b"", Status::Syntax, b"syntax at 0\n"),
        (b"goal $;", Status::Syntax, b"syntax at 5\n"),
        (b"goal \x80;", Status::Syntax, b"syntax at 5\n"),
        (b"goal \xff;", Status::Syntax, b"syntax at 5\n"),
        (b"goal \0;", Status::Syntax, b"syntax at 5\n"),
        (
            b"goal ex2 P(obj). all x. P(x)",
            Status::Syntax,
            b"syntax at 28\n",
        ),
        (
            b"goal ex2 P(obj). all x. ;",
            Status::Syntax,
            b"syntax at 24\n",
        ),
    ];
    for (input, status, text) in cases {
        let (ended, taken) = outcome(rt.alloc(), input, &[], &[])?;
        assert_eq!(rt; ended, status);
        assert_eq!(rt; taken.as_slice(), text);
    }
    Ok(())
}

#[test]
fn cases_are_written_whole(rt: HostRuntime) -> Result<(), Fail> {
    let cases: [(&[u8], Status, &[u8]); 4] = [
        (TWO_CASES, Status::Done, TWO_CASES_DERIVATION),
        (LOST, Status::NotReached, LOST_DERIVATION),
        (b"goal true;", Status::Done, TRUE),
        (b"goal ex2 P(obj). P(x);", Status::Names, b"names at 19\n"),
    ];
    for (input, status, text) in cases {
        let (ended, taken) = outcome_by(rt.alloc(), "dls", input, &[], &[])?;
        assert_eq!(rt; ended, status);
        assert_eq!(rt; taken.as_slice(), text);
    }
    Ok(())
}

#[test]
fn a_read_fails_at_each_call(rt: HostRuntime) -> Result<(), Fail> {
    // So many calls give a byte, and one more gives the end.
    for call in 1..=53u64 {
        let (ended, taken) = outcome(rt.alloc(), PROBLEM, &[call], &[])?;
        assert_eq!(rt; ended, Status::ReadFault, "at call {call}");
        assert_eq!(rt; taken.as_slice(), b"read fault\n".as_slice());
    }
    // No call is made after the end.
    let (ended, taken) = outcome(rt.alloc(), PROBLEM, &[54], &[])?;
    assert_eq!(rt; ended, Status::Done);
    assert_eq!(rt; taken.as_slice(), DERIVATION);
    Ok(())
}

// The first bytes of a text, or all of it.
fn front_of(text: &[u8], count: usize) -> &[u8] {
    if count < text.len() {
        &text[..count]
    } else {
        text
    }
}

#[test]
fn a_write_fails_at_each_call(rt: HostRuntime) -> Result<(), Fail> {
    // 18 calls write the 180 bytes.
    for (before, front) in DERIVATION.chunks(10).enumerate() {
        let call = before as u64 + 1;
        let (ended, taken) = outcome(rt.alloc(), PROBLEM, &[], &[call])?;
        assert_eq!(rt; ended, Status::WriteFault, "at call {call}");
        assert_eq!(rt;
            taken.as_slice(),
            front_of(DERIVATION, 10 * before),
            "at call {call}"
        );
        assert!(rt; !front.is_empty());
    }
    // The calls that fail at the source and at the sink, the status, and what is taken.
    let cases: [(&[u64], u64, Status, &[u8]); 4] = [
        (&[], 2, Status::WriteFault, b"soqe 1 eli"),
        (&[], 19, Status::Done, DERIVATION),
        (&[1], 1, Status::WriteFault, b""),
        (&[1], 2, Status::WriteFault, b"read fault"),
    ];
    for (source_fails, call, status, text) in cases {
        let (ended, taken) = outcome(rt.alloc(), PROBLEM, source_fails, &[call])?;
        assert_eq!(rt; ended, status, "at call {call}");
        assert_eq!(rt; taken.as_slice(), text);
    }
    Ok(())
}

#[test]
fn a_text_has_a_limit(rt: HostRuntime) -> Result<(), Fail> {
    let alloc = rt.alloc();
    let words = words_of(alloc, &["soqe", "elim", "--method", "sign"])?;
    // How many bytes come, with spaces behind the problem, and the answer.
    let cases: [(usize, Status, &[u8]); 2] = [
        (1_048_576, Status::Done, DERIVATION),
        (1_048_577, Status::TooLong, b"too long\n"),
    ];
    for (count, status, text) in cases {
        let mut bytes = PROBLEM.to_vec(alloc)?;
        bytes.resize(count, b' ')?;
        let mut source = MemSource::new(bytes, 10_000, Vec::new(alloc));
        let mut sink = MemSink::new(alloc, 1000, 1000, Vec::new(alloc))?;
        assert_eq!(rt; run(alloc, &words, &mut source, &mut sink), status);
        assert_eq!(rt; sink.bytes(), text);
    }
    let mut sink = MemSink::new(alloc, 1000, 1000, Vec::new(alloc))?;
    let status = run(alloc, &words, &mut RepeatSource::new(b' '), &mut sink);
    assert_eq!(rt; status, Status::TooLong);
    assert_eq!(rt; sink.bytes(), b"too long\n".as_slice());
    Ok(())
}

#[test]
fn other_words_are_refused_unread(rt: HostRuntime) -> Result<(), Fail> {
    let alloc = rt.alloc();
    let cases: [&[&str]; 9] = [
        &[],
        &["soqe"],
        &["soqe", "elim"],
        &["soqe", "elim", "--method"],
        &["soqe", "elim", "--method", "signs"],
        &["soqe", "elim", "method", "sign"],
        &["soqe", "elim", "--limit", "1000001"],
        &["soqe", "frame", "--method", "sign"],
        &["soqe", "elim", "--method", "sign", "sign"],
    ];
    for line in cases {
        let words = words_of(alloc, line)?;
        let mut source = MemSource::new(PROBLEM.to_vec(alloc)?, 1, [1].to_vec(alloc)?);
        let mut sink = MemSink::new(alloc, 100, 100, Vec::new(alloc))?;
        assert_eq!(rt; run(alloc, &words, &mut source, &mut sink), Status::Usage);
        assert_eq!(rt; sink.bytes(), b"usage: soqe COMMAND [OPTIONS]\n".as_slice());
        // The first call, which fails, was not made by the run.
        assert_eq!(rt; source.read(&mut [0; 1]), Err(Failed));
    }
    Ok(())
}

#[test]
fn statuses_have_their_numbers(rt: HostRuntime) -> Result<(), Fail> {
    let alloc = rt.alloc();
    let numbers = [
        (Status::Done, 0),
        (Status::Usage, 2),
        (Status::Syntax, 3),
        (Status::Names, 4),
        (Status::Sorts, 5),
        (Status::TooLong, 6),
        (Status::ReadFault, 7),
        (Status::WriteFault, 8),
        (Status::Memory, 9),
        (Status::NotReached, 12),
        (Status::Mixed, 14),
    ];
    for (status, number) in numbers {
        assert_eq!(rt; status.number(), number);
    }
    let status = run(
        alloc,
        &Vec::new(alloc),
        &mut RepeatSource::new(b'x'),
        &mut NullSink,
    );
    assert_eq!(rt; status, Status::Usage);
    Ok(())
}

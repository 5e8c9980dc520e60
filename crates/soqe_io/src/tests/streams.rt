use crate::*;
use std::test::Fail;

const TEXT: &[u8] = b"abcdefg";

#[test]
fn reads_to_the_end_or_to_the_limit(rt: HostRuntime) -> Result<(), Fail> {
    let alloc = rt.alloc();
    // The most bytes at a call, the limit, and what is read.
    let cases: [(usize, u64, &[u8]); 5] = [
        (1, 9, TEXT),
        (3, 7, TEXT),
        (3, 6, b"abcdef"),
        (9, 2, b"ab"),
        (9, 0, b""),
    ];
    for (per_call, limit, read) in cases {
        assert!(rt; per_call > 0);
        let mut source = MemSource::new(TEXT.to_vec(alloc)?, per_call, Vec::new(alloc));
        let answer = read_up_to(alloc, &mut source, limit);
        assert_eq!(rt; answer, Ok(read.to_vec(alloc)?));
    }
    let mut bytes = Vec::new(alloc);
    assert_eq!(rt;
        read_into(&mut RepeatSource::new(b'x'), &mut bytes, 10_000),
        Ok(10_000)
    );
    assert!(rt; bytes.len() == 10_000 && bytes.iter().all(|b| *b == b'x'));
    Ok(())
}

#[test]
fn reads_no_more_after_a_failure_or_the_end(rt: HostRuntime) -> Result<(), Fail> {
    let alloc = rt.alloc();
    // Seven calls give a byte, and the eighth gives the end. The call that fails, what was read, and the next byte.
    let cases: [(u64, &[u8], &[u8]); 4] = [
        (1, b"", b"a"),
        (3, b"ab", b"c"),
        (7, b"abcdef", b"g"),
        (8, TEXT, b""),
    ];
    for (call, read, next) in cases {
        let mut source = MemSource::new(TEXT.to_vec(alloc)?, 1, [call].to_vec(alloc)?);
        let mut bytes = Vec::new(alloc);
        assert_eq!(rt;
            read_into(&mut source, &mut bytes, 100),
            Err(ReadError::Fault)
        );
        assert_eq!(rt; bytes.as_slice(), read);
        let mut piece = [0; 1];
        assert_eq!(rt; source.read(&mut piece), Ok(next.len()));
        assert!(rt; piece.starts_with(next));
    }
    // The ninth call, which would fail, is the first that isn't made.
    let mut source = MemSource::new(TEXT.to_vec(alloc)?, 1, [9].to_vec(alloc)?);
    assert_eq!(rt;
        read_up_to(alloc, &mut source, 100),
        Ok(TEXT.to_vec(alloc)?)
    );
    assert_eq!(rt; source.read(&mut [0; 1]), Err(Failed));
    Ok(())
}

#[test]
fn writes_whole_or_a_proper_prefix(rt: HostRuntime) -> Result<(), Fail> {
    let alloc = rt.alloc();
    // The capacity, the call that fails, the answer, and what was taken. Three calls take the whole text.
    let cases: [(usize, u64, Result<(), Failed>, &[u8]); 6] = [
        (9, 4, Ok(()), TEXT),
        (7, 4, Ok(()), TEXT),
        (9, 1, Err(Failed), b""),
        (9, 2, Err(Failed), b"abc"),
        (9, 3, Err(Failed), b"abcdef"),
        (5, 4, Err(Failed), b"abcde"),
    ];
    for (capacity, call, answer, taken) in cases {
        let mut sink = MemSink::new(alloc, capacity, 3, [call].to_vec(alloc)?)?;
        assert_eq!(rt; write_whole(&mut sink, TEXT), answer);
        assert_eq!(rt; sink.bytes(), taken);
    }
    assert_eq!(rt; write_whole(&mut NullSink, TEXT), Ok(()));
    Ok(())
}

#[test]
fn a_long_text_goes_in_pieces(rt: HostRuntime) -> Result<(), Fail> {
    let alloc = rt.alloc();
    let text = vec![in alloc; b'x'; 10_000]?;
    // The call that fails, and how many bytes were taken before it.
    for (call, count) in [(1, 0), (2, 4096), (3, 8192), (4, 10_000)] {
        let mut sink = MemSink::new(alloc, 20_000, 20_000, [call].to_vec(alloc)?)?;
        assert_eq!(rt; write_whole(&mut sink, &text).is_ok(), call == 4);
        assert_eq!(rt; sink.bytes().len(), count);
    }
    Ok(())
}

use crate::*;
use std::test::Fail;

#[test]
fn a_memory_source_gives_pieces_and_fails_where_listed(rt: HostRuntime) -> Result<(), Fail> {
    let alloc = rt.alloc();
    let mut source = MemSource::new(b"abcde".to_vec(alloc)?, 2, [2].to_vec(alloc)?);
    // Whether a call has room for one byte alone, what it answers, and what then stands at the front of the buffer.
    let calls: [(bool, Result<usize, Failed>, &[u8]); 6] = [
        (false, Ok(2), b"ab"),
        (false, Err(Failed), b""),
        (true, Ok(1), b"c"),
        (false, Ok(2), b"de"),
        (false, Ok(0), b""),
        (false, Ok(0), b""),
    ];
    for (is_narrow, answer, front) in calls {
        let mut piece = [0; 8];
        let answered = if is_narrow {
            source.read(&mut piece[..1])
        } else {
            source.read(&mut piece)
        };
        assert_eq!(rt; answered, answer);
        assert!(rt; piece.starts_with(front));
    }
    Ok(())
}

#[test]
fn a_memory_sink_takes_pieces_and_fails_where_listed_and_where_full(
    rt: HostRuntime,
) -> Result<(), Fail> {
    let alloc = rt.alloc();
    let mut sink = MemSink::new(alloc, 5, 3, [2].to_vec(alloc)?)?;
    // The piece of each call, what it answers, and what the sink has taken then.
    let calls: [(&[u8], Result<usize, Failed>, &[u8]); 4] = [
        (b"abcd", Ok(3), b"abc"),
        (b"d", Err(Failed), b"abc"),
        (b"def", Ok(2), b"abcde"),
        (b"f", Err(Failed), b"abcde"),
    ];
    for (piece, answer, taken) in calls {
        assert_eq!(rt; sink.write(piece), answer);
        assert_eq!(rt; sink.bytes(), taken);
    }
    Ok(())
}

#[test]
fn sure_ends_never_fail(rt: HostRuntime) -> Result<(), Fail> {
    let alloc = rt.alloc();
    let mut sure = SureSource::new(b"abcd".to_vec(alloc)?);
    let calls: [(usize, &[u8]); 3] = [(3, b"abc"), (1, b"d"), (0, b"")];
    for (count, front) in calls {
        let mut piece = [0; 3];
        assert_eq!(rt; sure.read(&mut piece), Ok(count));
        assert!(rt; piece.starts_with(front));
    }
    let mut repeat = RepeatSource::new(b'x');
    for _ in 0..3 {
        let mut piece = [0; 3];
        assert_eq!(rt; repeat.read(&mut piece), Ok(3));
        assert_eq!(rt; piece, *b"xxx");
    }
    assert_eq!(rt; NullSink.write(b"abc"), Ok(3));
    Ok(())
}

#[test]
fn the_edge_passes_on_what_std_does(rt: HostRuntime) -> Result<(), Fail> {
    let alloc = rt.alloc();
    let mut source = StdSource::new(b"abc".as_slice());
    let calls: [(usize, &[u8]); 3] = [(2, b"ab"), (1, b"c"), (0, b"")];
    for (count, front) in calls {
        let mut piece = [0; 2];
        assert_eq!(rt; source.read(&mut piece), Ok(count));
        assert!(rt; piece.starts_with(front));
    }
    let mut sink = StdSink::new(Vec::new(alloc));
    assert_eq!(rt; sink.write(b"abc"), Ok(3));
    // A slice that is full takes nothing, which is a fault.
    let mut room = [0; 1];
    let mut full = StdSink::new(room.as_mut_slice());
    assert_eq!(rt; full.write(b"ab"), Ok(1));
    assert_eq!(rt; full.write(b"b"), Err(Failed));
    Ok(())
}

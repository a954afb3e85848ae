use super::*;
use std::test::Fail;

#[test]
fn reads_and_writes_in_pieces(rt: HostRuntime) -> Result<(), Fail> {
    let alloc = rt.alloc();
    let long = vec![in alloc; 7; 10_000]?;
    let mut files = Vec::new(alloc);
    files.push((String::from_str(alloc, "long")?, long.clone()?))?;
    files.push((String::from_str(alloc, "empty")?, Vec::new(alloc)))?;
    let mut shelf = MemShelf::new(files);
    for limit in [10_000, 10_001] {
        let whole = read_file(alloc, &mut shelf, "long", limit)?;
        assert_eq!(rt; whole.as_slice(), long.as_slice());
    }
    assert_eq!(rt; read_file(alloc, &mut shelf, "empty", 0)?.len(), 0);
    assert_eq!(rt;
        read_file(alloc, &mut shelf, "long", 9_999),
        Err(ReadFault::TooLong)
    );
    assert_eq!(rt;
        read_file(alloc, &mut shelf, "absent", 9),
        Err(ReadFault::Failed)
    );
    assert_eq!(rt; shelf.read(&mut [0]), Err(Failed));

    let mut sink = MemSink::with_room(alloc, 5)?;
    assert_eq!(rt; write_whole(&mut sink, b"abc"), Ok(()));
    assert_eq!(rt; write_whole(&mut sink, b"def"), Err(Failed));
    assert_eq!(rt; sink.bytes(), b"abcde".as_slice());
    Ok(())
}

#[test]
fn calls_fail_by_their_numbers(rt: HostRuntime) -> Result<(), Fail> {
    let alloc = rt.alloc();
    let mut files = Vec::new(alloc);
    files.push((
        String::from_str(alloc, "short")?,
        Vec::from_slice(alloc, b"ab")?,
    ))?;
    let mut shelf = FailShelf::new(MemShelf::new(files), Vec::from_slice(alloc, &[1, 3])?);
    let mut buffer = [0; 4];
    assert_eq!(rt; shelf.open("short"), Ok(()));
    assert_eq!(rt; shelf.read(&mut buffer), Err(Failed));
    assert_eq!(rt; shelf.read(&mut buffer), Err(Failed));
    assert_eq!(rt; shelf.open("short"), Err(Failed));
    assert_eq!(rt;
        read_file(alloc, &mut shelf, "short", 2)?.as_slice(),
        b"ab".as_slice()
    );

    let inner = MemSink::with_room(alloc, 9)?;
    let mut sink = FailSink::new(inner, Vec::from_slice(alloc, &[0, 1])?);
    assert_eq!(rt; sink.write(b"a"), Err(Failed));
    assert_eq!(rt; sink.write(b""), Ok(0));
    assert_eq!(rt; sink.write(b"abc"), Ok(3));
    assert_eq!(rt; sink.inner().bytes(), b"abc".as_slice());
    Ok(())
}

//! What is printed for small files, valid and damaged.
use crate::run::run_job;
use std::alloc::{AllocError, Global};
use std::process::Abort;
use std::test::Fail;

fn prints(rt: &impl Abort, heap: Global, file: &[u8], text: &str) -> Result<(), Fail> {
    let printed = run_job(heap, file)?;
    assert_eq!(rt; printed.as_str(), text);
    Ok(())
}

#[test]
fn files(rt: HostRuntime) -> Result<(), Fail> {
    prints(&rt, rt.alloc(), b"", "refused 19 file 0\n")?;
    prints(&rt, rt.alloc(), b"\x01\x00\x00", "refused 19 file 3\n")?;
    prints(
        &rt,
        rt.alloc(),
        b"\x01\x00\x00\x00\x01\x00\x00\x001\x01\x00",
        "refused 20 file 11\n",
    )?;
    prints(
        &rt,
        rt.alloc(),
        b"\xff\xff\xff\xff\xff\xff\xff\xff",
        "refused 20 file 8\n",
    )
}

#[test]
fn texts(rt: HostRuntime) -> Result<(), Fail> {
    prints(
        &rt,
        rt.alloc(),
        b"\x08\x00\x00\x00\x01\x00\x00\x00x(1,2)-3\x03",
        "refused 7 signature 0\n",
    )?;
    prints(
        &rt,
        rt.alloc(),
        b"\x05\x00\x00\x00\x01\x00\x00\x00[9:3]\x03",
        "refused 5 slot 1\n",
    )?;
    prints(
        &rt,
        rt.alloc(),
        b"\x0b\x00\x00\x00\x01\x00\x00\x001-x(1,64)-2\x01",
        "refused 3 number 6\n",
    )?;
    prints(
        &rt,
        rt.alloc(),
        b"\x02\x00\x00\x00\x01\x00\x00\x001-\x01",
        "refused 2 number 2\n",
    )?;
    prints(
        &rt,
        rt.alloc(),
        b"\x00\x00\x00\x00\x01\x00\x00\x00\x01",
        "refused 2 number 0\n",
    )?;
    prints(
        &rt,
        rt.alloc(),
        b"\x07\x00\x00\x00\x01\x00\x00\x001-x(5,3\x01",
        "refused 5 signature 4\n",
    )?;
    prints(
        &rt,
        rt.alloc(),
        b"\x09\x00\x00\x00\x01\x00\x00\x001-x(0,2)2\x01",
        "refused 4 signature 8\n",
    )?;
    prints(
        &rt,
        rt.alloc(),
        b"\x06\x00\x00\x00\x01\x00\x00\x00[1  2]\x01",
        "refused 2 number 3\n",
    )
}

#[test]
fn openings(rt: HostRuntime) -> Result<(), Fail> {
    prints(
        &rt,
        rt.alloc(),
        b"\x01\x00\x00\x00\x00\x00\x00\x001",
        "refused 8 record 0\n",
    )?;
    prints(
        &rt,
        rt.alloc(),
        b"\x0b\x00\x00\x00\x02\x00\x00\x001-x(0,63)-2\x01\x02",
        "refused 10 record 0\n",
    )
}

#[test]
fn hits(rt: HostRuntime) -> Result<(), Fail> {
    prints(
        &rt,
        rt.alloc(),
        b"\x11\x00\x00\x00\x06\x00\x00\x0010-x(0,2)-[20 21]\x0a\x14\x05\x15\x0a\x15",
        "hit 1 at 0 1\nhit 3 at 0 3\nhit 5 at 4 5\nhits 3 of 6\n",
    )?;
    prints(
        &rt,
        rt.alloc(),
        b"\x0c\x00\x00\x00\x05\x00\x00\x001-2-x(0,3)-3\x01\x02\x09\x02\x03",
        "hit 4 at 0 1 4\nhits 1 of 5\n",
    )?;
    prints(
        &rt,
        rt.alloc(),
        b"\x03\x00\x00\x00\x03\x00\x00\x005-5\x05\x05\x05",
        "hit 1 at 0 1\nhit 2 at 1 2\nhits 2 of 3\n",
    )?;
    prints(
        &rt,
        rt.alloc(),
        b"\x07\x00\x00\x00\x02\x00\x00\x00{0:255}\x00\xff",
        "hits 0 of 2\n",
    )
}

// A file with one reading, 1, and a text of as many parts and then an end.
fn repeated(
    heap: Global,
    header: &[u8],
    part: &[u8],
    count: usize,
    end: &[u8],
) -> Result<Vec<u8>, AllocError> {
    let mut file = Vec::new(heap);
    file.extend_from_slice(header)?;
    for _ in 0..count {
        file.extend_from_slice(part)?;
    }
    file.extend_from_slice(end)?;
    Ok(file)
}

#[test]
fn most_slots(rt: HostRuntime) -> Result<(), Fail> {
    let full = repeated(
        rt.alloc(),
        b"\x3f\x00\x00\x00\x01\x00\x00\x00",
        b"1-",
        31,
        b"1\x01",
    )?;
    prints(&rt, rt.alloc(), &full, "hits 0 of 1\n")?;
    let more = repeated(
        rt.alloc(),
        b"\x41\x00\x00\x00\x01\x00\x00\x00",
        b"1-",
        32,
        b"1\x01",
    )?;
    prints(&rt, rt.alloc(), &more, "refused 6 signature 64\n")
}

#[test]
fn longest_text(rt: HostRuntime) -> Result<(), Fail> {
    let full = repeated(
        rt.alloc(),
        b"\x00\x10\x00\x00\x01\x00\x00\x00",
        b"0",
        4096,
        b"\x00",
    )?;
    prints(&rt, rt.alloc(), &full, "hit 0 at 0\nhits 1 of 1\n")?;
    let more = repeated(
        rt.alloc(),
        b"\x01\x10\x00\x00\x01\x00\x00\x00",
        b"0",
        4097,
        b"\x00",
    )?;
    prints(&rt, rt.alloc(), &more, "refused 1 signature 4096\n")
}

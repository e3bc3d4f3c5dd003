// That reading succeeds, on examples.
use crate::{LIMIT, first_bytes, first_bytes_of_opened};
use std::fs::File;
use std::io::Cursor;
use std::test::Fail;

const INPUT: &[u8] = b"w\nn\ne\n";

#[test]
fn an_input_within_the_limit_is_read_whole(rt: HostRuntime) -> Result<(), Fail> {
    let bytes = first_bytes(rt.alloc(), INPUT, INPUT.len() + 1)?;
    assert_eq!(rt; bytes.as_slice(), INPUT);
    let bytes = first_bytes(rt.alloc(), INPUT, INPUT.len())?;
    assert_eq!(rt; bytes.as_slice(), INPUT);
    let bytes = first_bytes(rt.alloc(), Cursor::new(INPUT), LIMIT)?;
    assert_eq!(rt; bytes.as_slice(), INPUT);
    Ok(())
}

#[test]
fn an_input_beyond_the_limit_is_cut_there(rt: HostRuntime) -> Result<(), Fail> {
    let bytes = first_bytes(rt.alloc(), INPUT, 3)?;
    assert_eq!(rt; bytes.as_slice(), b"w\nn".as_slice());
    let bytes = first_bytes(rt.alloc(), INPUT, 0)?;
    assert_eq!(rt; bytes.len(), 0);
    Ok(())
}

#[test]
fn a_file_is_read_up_to_the_limit(rt: HostRuntime) -> Result<(), Fail> {
    let bytes = first_bytes_of_opened(rt.alloc(), File::open(&rt, "/dev/zero"), 3)?;
    assert_eq!(rt; bytes.as_slice(), b"\0\0\0".as_slice());
    Ok(())
}

#[test]
fn a_missing_file_counts_as_empty(rt: HostRuntime) -> Result<(), Fail> {
    let missing = File::open(&rt, "/no-such-folder/catalogue");
    let bytes = first_bytes_of_opened(rt.alloc(), missing, LIMIT)?;
    assert_eq!(rt; bytes.len(), 0);
    Ok(())
}

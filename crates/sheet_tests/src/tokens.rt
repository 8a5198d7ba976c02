// Tokens that are not well made, and tokens that do not fit.
use crate::readings::wrong;
use std::test::Fail;

#[test]
fn numbers(rt: HostRuntime) -> Result<(), Fail> {
    wrong(&rt, b"01.0.0.0/8,*,*,*,*,accept\n", 4, 0, 1)?;
    wrong(&rt, b"00.0.0.0/0,*,*,*,*,accept\n", 4, 0, 1)?;
    wrong(&rt, b"0.0.0.00/0,*,*,*,*,accept\n", 4, 6, 1)?;
    wrong(&rt, b"*,*,100000,*,*,accept\n", 4, 4, 3)?;
    wrong(&rt, b"*,*,99999,*,*,accept\n", 6, 4, 3)?;
    wrong(&rt, b"*,*,80-079,*,*,accept\n", 4, 7, 3)
}

#[test]
fn words(rt: HostRuntime) -> Result<(), Fail> {
    wrong(&rt, b"*,*,*,*,TCP,accept\n", 4, 8, 5)?;
    wrong(&rt, b"*,*,*,*,tCP,accept\n", 5, 8, 5)?;
    wrong(&rt, b"*,*,*,*,tcpX,accept\n", 4, 11, 5)?;
    wrong(&rt, b"*,*,*,*,tcp6,accept\n", 5, 11, 5)?;
    wrong(&rt, b"*,*,*,*,sctp,accept\n", 5, 8, 5)?;
    wrong(&rt, b"tcp,*,*,*,*,accept\n", 5, 0, 1)?;
    wrong(&rt, b"*,*,udp,*,*,accept\n", 5, 4, 3)
}

#[test]
fn other_bytes(rt: HostRuntime) -> Result<(), Fail> {
    wrong(&rt, b" *,*,*,*,*,accept\n", 4, 0, 1)?;
    wrong(&rt, b"*\r,*,*,*,*,accept\n", 4, 1, 1)?;
    wrong(&rt, b"\0,*,*,*,*,accept\n", 4, 0, 1)?;
    wrong(&rt, b"*,\x80,*,*,*,accept\n", 4, 2, 2)?;
    wrong(&rt, b"*,*,*,\xff,*,accept\n", 4, 6, 4)?;
    wrong(&rt, b"*,*,*;*,*,accept\n", 4, 5, 3)?;
    wrong(&rt, b"+1.0.0.0/8,*,*,*,*,accept\n", 4, 0, 1)
}

#[test]
fn empty_fields_and_lines(rt: HostRuntime) -> Result<(), Fail> {
    wrong(&rt, b"\n", 5, 0, 1)?;
    wrong(&rt, b"*\n", 5, 1, 1)?;
    wrong(&rt, b",*,*,*,*,accept\n", 5, 0, 1)?;
    wrong(&rt, b"*,,*,*,*,accept\n", 5, 2, 2)?;
    wrong(&rt, b"*,*,*,*,,accept\n", 5, 8, 5)?;
    wrong(&rt, b"*,*,*,*,*\n", 5, 9, 5)
}

#[test]
fn misplaced_marks(rt: HostRuntime) -> Result<(), Fail> {
    wrong(&rt, b"**,*,*,*,*,accept\n", 5, 1, 1)?;
    wrong(&rt, b"1.2.3.4,*,*,*,*,accept\n", 5, 7, 1)?;
    wrong(&rt, b"1.2.3/8,*,*,*,*,accept\n", 5, 5, 1)?;
    wrong(&rt, b"10-20,*,*,*,*,accept\n", 5, 2, 1)?;
    wrong(&rt, b"*,*,80-,*,*,accept\n", 5, 7, 3)?;
    wrong(&rt, b"*,*,-80,*,*,accept\n", 5, 4, 3)?;
    wrong(&rt, b"*,*,80-90-95,*,*,accept\n", 5, 9, 3)?;
    wrong(&rt, b"*,*,80.0,*,*,accept\n", 5, 6, 3)?;
    wrong(&rt, b"*,*,*,*,6-7,accept\n", 5, 9, 5)
}

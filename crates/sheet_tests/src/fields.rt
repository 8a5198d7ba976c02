// Fields whose numbers are out of range, and words of no decision.
use crate::readings::wrong;
use std::test::Fail;

#[test]
fn out_of_range(rt: HostRuntime) -> Result<(), Fail> {
    wrong(&rt, b"256.0.0.0/8,*,*,*,*,accept\n", 6, 0, 1)?;
    wrong(&rt, b"10.0.0.0/33,*,*,*,*,accept\n", 6, 0, 1)?;
    wrong(&rt, b"10.0.0.1/8,*,*,*,*,accept\n", 6, 0, 1)?;
    wrong(&rt, b"0.0.0.1/0,*,*,*,*,accept\n", 6, 0, 1)?;
    wrong(&rt, b"*,10.0.0.1/31,*,*,*,accept\n", 6, 2, 2)?;
    wrong(&rt, b"*,*,65536,*,*,accept\n", 6, 4, 3)?;
    wrong(&rt, b"*,*,80-79,*,*,accept\n", 6, 4, 3)?;
    wrong(&rt, b"*,*,*,0-65536,*,accept\n", 6, 6, 4)?;
    wrong(&rt, b"*,*,*,*,256,accept\n", 6, 8, 5)
}

#[test]
fn a_field_before_the_next(rt: HostRuntime) -> Result<(), Fail> {
    wrong(&rt, b"*,*,80-79,X,*,accept\n", 6, 4, 3)?;
    wrong(&rt, b"*,*,80-79X,*,*,accept\n", 4, 9, 3)?;
    wrong(&rt, b"*,*,80-79*,*,*,accept\n", 5, 9, 3)
}

#[test]
fn no_word(rt: HostRuntime) -> Result<(), Fail> {
    wrong(&rt, b"*,*,*,*,*,\n", 7, 10, 6)?;
    wrong(&rt, b"*,*,*,*,*,Accept\n", 7, 10, 6)?;
    wrong(&rt, b"*,*,*,*,*,accept,\n", 7, 10, 6)?;
    wrong(&rt, b"*,*,*,*,*,accept \n", 7, 10, 6)?;
    wrong(&rt, b"*,*,*,*,*,accept\r\n", 7, 10, 6)?;
    wrong(&rt, b"*,*,*,*,*,reject-16\n", 7, 10, 6)?;
    wrong(&rt, b"*,*,*,*,*,reject-01\n", 7, 10, 6)?;
    wrong(&rt, b"*,*,*,*,*,q0.0\n", 7, 10, 6)
}

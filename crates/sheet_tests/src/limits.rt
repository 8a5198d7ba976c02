// How long a sheet is, how many lines it has, and how it ends.
use crate::readings::{counted, place, refused, told, wrong};
use policy::verdict::Verdict;
use sheet::sheets::read_rules;
use std::test::Fail;

#[test]
fn the_last_line(rt: HostRuntime) -> Result<(), Fail> {
    wrong(&rt, b"*,*,*,*,*,accept", 3, 16, 0)?;
    wrong(&rt, b"X", 3, 1, 0)?;
    wrong(&rt, b"X,*\n*", 4, 0, 1)?;
    refused::<Verdict>(&rt, b"*,*,*,*,*,accept\n*", 3, 18, 2, 0)?;
    refused::<Verdict>(&rt, b"*,*,*,*,*,accept\n*,*,*,*,*,no\n", 7, 27, 2, 6)
}

#[test]
fn places(rt: HostRuntime) -> Result<(), Fail> {
    let two = b"*,*,*,*,*,accept\n*,*,*,*,*,accept\n";
    let mut none = [place(); 0];
    counted(&rt, read_rules::<Verdict>(b"", &mut none), 0)?;
    told(&rt, read_rules::<Verdict>(two, &mut none), 2, 0, 1, 0)?;
    let mut one = [place(); 1];
    told(&rt, read_rules::<Verdict>(two, &mut one), 2, 17, 2, 0)?;
    told(
        &rt,
        read_rules::<Verdict>(b"*,*,*,*,*,accept\nX", &mut one),
        2,
        17,
        2,
        0,
    )
}

#[test]
fn lines(rt: HostRuntime) -> Result<(), Fail> {
    let line = b"*,*,*,*,*,accept\n";
    let mut sheet = [0u8; 1105];
    for (i, byte) in sheet.iter_mut().enumerate() {
        *byte = line[i % 17];
    }
    let mut places = [place(); 70];
    counted(&rt, read_rules::<Verdict>(&sheet[0..1088], &mut places), 64)?;
    told(
        &rt,
        read_rules::<Verdict>(&sheet[0..1105], &mut places),
        2,
        1088,
        65,
        0,
    )?;
    told(
        &rt,
        read_rules::<Verdict>(&sheet[0..1089], &mut places),
        2,
        1088,
        65,
        0,
    )
}

#[test]
fn bytes(rt: HostRuntime) -> Result<(), Fail> {
    let sheet = [b'a'; 8193];
    let mut places = [place(); 1];
    told(
        &rt,
        read_rules::<Verdict>(&sheet[0..8192], &mut places),
        3,
        8192,
        1,
        0,
    )?;
    told(
        &rt,
        read_rules::<Verdict>(&sheet[0..8193], &mut places),
        1,
        8192,
        0,
        0,
    )
}

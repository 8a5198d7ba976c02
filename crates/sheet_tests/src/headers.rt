// Sheets of headers.
use crate::readings::{counted, told};
use policy::fields::{FIELDS, Header};
use sheet::headers::read_headers;
use std::process::Abort;
use std::test::Fail;

// The sheet is refused at its first line.
fn wrong(rt: &impl Abort, sheet: &[u8], number: u8, byte: usize, field: u8) -> Result<(), Fail> {
    let mut places = [Header {
        numbers: [0; FIELDS],
    }; 2];
    told(rt, read_headers(sheet, &mut places), number, byte, 1, field)
}

#[test]
fn a_header_is_numbers_alone(rt: HostRuntime) -> Result<(), Fail> {
    let mut places = [Header {
        numbers: [0; FIELDS],
    }; 2];
    counted(
        &rt,
        read_headers(b"1.2.3.4,255.255.255.255,1,65535,255\n", &mut places),
        1,
    )?;
    assert_eq!(rt; places[0].numbers[0], 16_909_060);
    assert_eq!(rt; places[0].numbers[4], 255);
    wrong(&rt, b"1.2.3.4,5.6.7.8,1,2,256\n", 6, 20, 5)?;
    wrong(&rt, b"1.2.3.4,5.6.7.8,1,2,3,\n", 5, 21, 5)?;
    wrong(&rt, b"1.2.3.4/8,5.6.7.8,1,2,3\n", 5, 7, 1)?;
    wrong(&rt, b"1.2.3.4,5.6.7.8,1,2,tcp\n", 5, 20, 5)
}

#[test]
fn header_fields(rt: HostRuntime) -> Result<(), Fail> {
    wrong(&rt, b"*,5.6.7.8,1,2,3\n", 5, 0, 1)?;
    wrong(&rt, b"1.2.3.4,5.6.7.256,1,2,3\n", 6, 8, 2)?;
    wrong(&rt, b"1.2.3.4,5.6.7.8,1-2,2,3\n", 5, 17, 3)?;
    wrong(&rt, b"1.2.3.4,5.6.7.8,1,65536,3\n", 6, 18, 4)?;
    wrong(&rt, b"1.2.3.4,5.6.7.8,1,2,3", 3, 21, 0)
}

// Sheets without a fault.
use crate::readings::read;
use policy::verdict::Verdict;
use std::test::Fail;

#[test]
fn addresses(rt: HostRuntime) -> Result<(), Fail> {
    read::<Verdict>(&rt, b"", 0)?;
    read::<Verdict>(&rt, b"*,*,*,*,*,accept\n", 1)?;
    read::<Verdict>(&rt, b"0.0.0.0/0,*,*,*,*,accept\n", 1)?;
    read::<Verdict>(&rt, b"255.255.255.255/32,*,*,*,*,discard\n", 1)?;
    read::<Verdict>(&rt, b"10.0.0.0/8,192.168.0.1/32,*,*,*,reject-0\n", 1)?;
    read::<Verdict>(&rt, b"*,*,*,*,*,accept\n*,*,*,*,*,reject-15\n", 2)
}

#[test]
fn ports_and_protocols(rt: HostRuntime) -> Result<(), Fail> {
    read::<Verdict>(&rt, b"*,*,0,65535,*,accept\n", 1)?;
    read::<Verdict>(&rt, b"*,*,0-65535,*,*,accept\n", 1)?;
    read::<Verdict>(&rt, b"*,*,80-80,*,*,accept\n", 1)?;
    read::<Verdict>(&rt, b"*,*,*,*,0,accept\n", 1)?;
    read::<Verdict>(&rt, b"*,*,*,*,255,accept\n", 1)?;
    read::<Verdict>(&rt, b"*,*,*,*,tcp,accept\n", 1)?;
    read::<Verdict>(&rt, b"*,*,*,*,udp,accept\n", 1)?;
    read::<Verdict>(&rt, b"*,*,*,*,icmp,accept\n", 1)
}

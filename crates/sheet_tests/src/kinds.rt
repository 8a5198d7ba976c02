// Sheets of service classes.
use crate::readings::{read, refused};
use service::classes::ServiceClass;
use std::test::Fail;

#[test]
fn service_classes(rt: HostRuntime) -> Result<(), Fail> {
    read::<ServiceClass>(&rt, b"*,*,*,*,*,q0.0\n*,*,*,*,*,q7.3\n", 2)?;
    refused::<ServiceClass>(&rt, b"*,*,*,*,*,q8.0\n", 7, 10, 1, 6)?;
    refused::<ServiceClass>(&rt, b"*,*,*,*,*,q0.4\n", 7, 10, 1, 6)?;
    refused::<ServiceClass>(&rt, b"*,*,*,*,*,accept\n", 7, 10, 1, 6)
}

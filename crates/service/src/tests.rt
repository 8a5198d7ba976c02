// Examples.
use crate::classes::ServiceClass;
use policy::kinds::Kind;

#[test]
fn words_are_four_bytes(rt: HostRuntime) {
    assert_eq!(rt; ServiceClass::from_word(b"q5.2"), ServiceClass::new(5, 2));
    assert_eq!(rt; ServiceClass::from_word(b"q8.0"), None);
    assert_eq!(rt; ServiceClass::from_word(b"q0.4"), None);
    assert_eq!(rt; ServiceClass::from_word(b"q5.20"), None);
    assert_eq!(rt; ServiceClass::from_word(b"Q5.2"), None);
}

#[test]
fn codes_count_by_fours(rt: HostRuntime) {
    assert_eq!(rt; ServiceClass::from_code(31), ServiceClass::new(7, 3));
    assert_eq!(rt; ServiceClass::from_code(32), None);
    assert_eq!(rt; ServiceClass::from_code(22), ServiceClass::new(5, 2));
}

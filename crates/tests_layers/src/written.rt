use c_syntax_written::{IntType, Name};
use std::alloc::AllocError;

#[test]
fn integer_types_have_limits(rt: HostRuntime) {
    assert_eq!(rt; IntType::Short.width(), 16);
    assert_eq!(rt; IntType::ULong.bytes(), 8);
    assert!(rt; IntType::Char.is_signed());
    assert_eq!(rt; IntType::Int.limits(), (-2_147_483_648, 2_147_483_647));
    assert_eq!(rt; IntType::UChar.limits(), (0, 255));
}

#[test]
fn a_name_is_copied(rt: HostRuntime) -> Result<(), AllocError> {
    let name = Name::from_vec(b"f".to_vec(rt.alloc())?);
    let copy = name.copy()?;
    assert_eq!(rt; copy.as_slice(), name.as_slice());
    Ok(())
}

// The tables of operators are those of the program `table_states`.
use block_mem::{Scalar, Value};
use c_syntax::{CType, IntType};
use c_values::*;

#[test]
fn converts_values(rt: HostRuntime) {
    let ty = scalar_of(&CType::Int(IntType::UChar));
    assert_eq!(rt; ty, Some(Scalar::Int(IntType::UChar)));
    let given = Given::Value(Value::Int(IntType::Int, -1));
    assert_eq!(rt;
        convert(Some(Scalar::Int(IntType::UChar)), given),
        Given::Value(Value::Int(IntType::UChar, 255))
    );
    assert_eq!(rt; convert(None, given), Given::Nothing);
    assert_eq!(rt; check_end(given), Ok(()));
    assert!(rt; !truth(Value::Null));
    assert_eq!(rt; bit(true), Value::Int(IntType::Int, 1));
}

use c_layout::*;
use c_syntax::{CType, IntType, StructDefs};

#[test]
fn scalar_of_an_int(rt: HostRuntime) {
    let alloc = rt.alloc();
    let structs = StructDefs::new(alloc);
    let int = CType::Int(IntType::Int);
    assert!(rt; scalar_at(&int, &structs, 0, 4).is_some());
}

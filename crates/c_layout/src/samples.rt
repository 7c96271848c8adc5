// Laws on small programs, by which the definitions are judged.

ghost use Rattle.std.specs.Prelude.{false, true};
ghost use Rattle.c_syntax_written.specs.declared.int_type.IntType.TheVariants as ints;
ghost use Rattle.c_layout.specs.WellTyped.{IsWellTyped};
ghost use Rattle.c_layout.specs.Plans.{HasBody};
ghost use Rattle.c_layout.specs.Calls.{IsFirstCall};
ghost use Rattle.c_layout.specs.Samples as samples;

/// Programs that are not well typed: a returned call whose value is marked as not used, two
/// functions of one name, a member of an incomplete type, an initialiser whose items overlap, a
/// declaration outside of its object's block, a variable that is const though it was not declared
/// so, a pointer to a function, and an input of a type that no reserved name has.
pub fn ill_typed_programs()
    ensures unused_call { IsWellTyped (samples.returns_call false) → ⊥ }
    ensures one_name { IsWellTyped samples.named_twice → ⊥ }
    ensures incomplete_member { IsWellTyped samples.holds_incomplete → ⊥ }
    ensures overlap { IsWellTyped samples.stores_twice → ⊥ }
    ensures other_block { IsWellTyped samples.declares_inside → ⊥ }
    ensures not_const { IsWellTyped samples.reads_const → ⊥ }
    ensures function_target { IsWellTyped samples.points_to_function → ⊥ }
    ensures input_type { IsWellTyped (samples.reads_input ints.LLong) → ⊥ }
{}

/// The first of these programs with its call marked as used is well typed.
pub fn used_call_is_typed()
    ensures { IsWellTyped (samples.returns_call true) }
{}

/// Where two calls of a function without a body stand in one another, the outer one is first.
pub fn outer_call_is_first()
    ensures { IsFirstCall samples.nested (λ call. HasBody samples.nested call.callee → ⊥) samples.outer_call }
{}

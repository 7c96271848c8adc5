//! C's integer expressions over any numeric domain.
//!
//! # C's integer expressions over variables, each node with its type
//!
//! Every node wraps what it comes to into its type. So `x - 1` at `unsigned char` is 255 where x is 0: the
//! exact result of the difference is -1, and the value of the node is 255.
//!
//! specs/MExprs.antt has the tree of an expression, without pointers, and specs/Machine.antt its value: the
//! exact result of a node, an operator on the values of its operands, and the value, which is that result
//! wrapped by the type's one definition in `c_syntax_written`. `MExpr::int_type` promises that a value is a number of
//! the type, and `MExpr::untyped` that the expression without types has the exact result as its value wherever
//! each operand's exact result fits its type.
//!
//! # C's operators on integers, as operators on whole numbers whose results wrap
//!
//! A node of an `MExpr` has an operator without a width and wraps its result into its type. Each call here
//! gives what stands for an operator of C, and promises that its wrapped result is the one that `c_values` has
//! for C's operator at that type. For example, `~x` at `unsigned char` is -1 - x, wrapped: 255 - x.
//!
//! specs/Laws.antt has what it means to stand for an operator.
//!
//! # C's integers over any numeric domain
//!
//! A state of the domain, whose variables have numbers of C's types. `set` gives a variable the value of an
//! expression of C, `test` keeps the valuations in which an expression has a truth, and `check_range` answers
//! for the exact result of an expression's outermost node, which its type need not have. For example, where x
//! lies in [0, 100], `set` of y to `x + 1` at `int` keeps that y is x + 1; where nothing is known of x, y gets
//! the range of `int`, since the sum may wrap.
//!
//! A range of each part is made by the operators on ranges and by wrapping, and cut by what the domain answers
//! of the part. The expression goes to the domain without its types. Where one shift by a multiple of 2 to the
//! width takes the range of a part into its type, the part is shifted by it, and so the domain keeps relations
//! through it; else the part is written as what its bits are as a number of the type, from which a domain still
//! tells the low bits. A product that need not be an `i128` goes by numbers that are like its factors. What is
//! then known of a variable that is set, or of the sides of a comparison, is cut by these ranges.
//!
//! A machine of which a cut has left nothing is void: it admits nothing, and stays a machine.
//!
//! specs/Machines.antt has the state behind a machine, its valuations and its weight, specs/Rule.antt the plain
//! rule, specs/Own.antt the domain's own answers. What an expression means is `machine_nums`' own. The laws are
//! clauses of the calls of `Machine`; docs/NUMBERS.md lists them.
//!
//! # Ranges of what C's operators on integers give, before and behind wrapping
//!
//! An operator on whole numbers takes the ranges of its operands to one of its exact result, and wrapping takes
//! that to a range of the value. For example, [200, 255] and [100, 100] have sums in [300, 355], which at
//! `unsigned char` are [44, 99]: all of them less 256. Of sums in [200, 355] only the type's numbers are known.
//!
//! specs/Wrapping.antt says what wrapping a range promises. The ranges are no wider than the plain rule for C's
//! expressions, and points go to points.
#![tactic(auto)]

mod alignment;
mod c_operators;
mod changes;
mod cuts;
mod evaluation;
mod expr;
mod machine;
mod operators;
mod parts;
mod range_types;
mod wrapping;

pub use c_operators::{
    Compared, arithmetic_operator, comparison_operator, complement, minus, shift_operator,
};
pub use expr::MExpr;
pub use machine::Machine;
pub use operators::{typed_range, unary_range};
pub use range_types::{lies_in, mask, meet, type_range};
pub use wrapping::{Way, Wrapping, wrap_range};

// Switches, and the cases in them.
#![tactic(auto)]

ghost use Rattle.std.specs.Prelude.{◌≡◌, MatchOption, None};
ghost use Rattle.c_syntax.specs.Types as types;
ghost use Rattle.c_syntax.specs.Types.{ctype_tree};
ghost use Rattle.c_syntax.specs.TypedExpr.{TExprTree, texpr_tree};
ghost use Rattle.c_syntax.specs.TypedParts.{texpr_type};
ghost use Rattle.c_syntax.specs.TypedStmt as trees;
ghost use Rattle.c_syntax.specs.TypedStmt.{tstmt_tree};
ghost use Rattle.c_typing.specs.Stmts as stmts;
ghost use Rattle.c_typing.specs.World as worlds;
ghost use Rattle.c_check_names.specs.Views.{Answers};
ghost use Rattle.c_check_names.specs.Worlds.{world_of};
ghost use Rattle.c_check_jumps.specs.Views.{Keeps, switched_tree};

use c_check_names::{CaseAt, Cases, TypeError, World, no_rule};
use c_check_operators::as_int;
use c_layout::{promote, wrap};
use c_syntax::{CType, IntType, Op, Pos, TExpr, TStmt};
use std::mem;

/// The value of a switch, which has its promoted type.
#[derive(Drop)]
pub struct Switched {
    pub value: TExpr,
    pub ty: IntType,
}

/// The cases and the default of the switch around, kept while those of another are told.
#[derive(Drop)]
pub struct OuterCases {
    cases: Cases,
    default: Option<Pos>,
}

/// A case by the value of its expression, at the switch's type. Outside of a switch it is Undeclared at its word; what is no
/// constant is NotConstant at the expression; a value that the switch has is Redeclared. Once out of memory the program is
/// only dropped.
pub fn case_of(
    world: &mut World,
    at: Pos,
    value_at: Pos,
    switch: Option<IntType>,
    value: Option<i128>,
) -> Result<i128, TypeError>
    ensures { Answers (λ out. out ≡ stmts.case_of (world_of world.old) at value_at switch value) (λ n. n) (world_of world.new) result }
{
    match switch {
        None => Err(TypeError::Undeclared(at)),
        Some(t) => match value {
            None => Err(TypeError::NotConstant(value_at)),
            Some(n) => cased(world, at, wrap(t, n)),
        },
    }
}

// A case of this value, which is new in the switch.
fn cased(world: &mut World, at: Pos, n: i128) -> Result<i128, TypeError>
    ensures { Answers (λ out. out ≡ stmts.cased (world_of world.old) at n) (λ m. m) (world_of world.new) result }
{
    match case_before(world, n) {
        Some(first) => Err(TypeError::Redeclared(at, first)),
        None => {
            world.cases.push(CaseAt { value: n, pos: at })?;
            Ok(n)
        }
    }
}

// The place of the case of this value.
fn case_before(world: &World, n: i128) -> Option<Pos>
    ensures { result ≡ stmts.case_before (world_of world.now) n }
{
    world.cases.first(n)
}

/// A default, which a switch has once, else it is Redeclared. Outside of a switch it is Undeclared.
pub fn default_of(world: &mut World, at: Pos, switch: Option<IntType>) -> Result<TStmt, TypeError>
    ensures { Answers (λ out. out ≡ stmts.default_of (world_of world.old) at switch) tstmt_tree (world_of world.new) result }
{
    match switch {
        None => Err(TypeError::Undeclared(at)),
        Some(_) => match world.default {
            Some(first) => Err(TypeError::Redeclared(at, first)),
            None => {
                world.default = Some(at);
                Ok(default_node(at))
            }
        },
    }
}

#[tactic(auto, using(c_syntax::proofs::Trees::the_trees))]
fn default_node(at: Pos) -> TStmt
    ensures { tstmt_tree result ≡ trees.Default at }
{
    TStmt::Default { pos: at }
}

/// A switch takes an integer, which is promoted. Any other value is NoRule with Op `switch` and its type left.
pub fn switched_by(world: &World, at: Pos, e: TExpr) -> Result<Switched, TypeError>
    ensures { Answers (λ out. out ≡ stmts.switched_by (world_of world.now) at (texpr_tree e) (texpr_type (texpr_tree e)))
        switched_tree (world_of world.now) result }
{
    let from = e.ty()?;
    match integer_type(&from) {
        Some(t) => {
            let ty = promote(t);
            let value = as_int(world.alloc(), ty, t, e)?;
            Ok(Switched { value, ty })
        }
        None => Err(no_rule(
            world.alloc(),
            &world.structs.defs,
            at,
            Op::Switch,
            from,
            None,
        )),
    }
}

// The integer type that it is.
#[tactic(auto, using(c_syntax::proofs::Trees::the_trees))]
fn integer_type(ty: &CType) -> Option<IntType>
    ensures { MatchOption result ((w : worlds.World) (at : Pos) (e : TExprTree)
        → stmts.switched_by w at e (ctype_tree ty.now) ≡ worlds.Refused (worlds.no_rule w at Op.Switch (ctype_tree ty.now) None))
        (λ t. ctype_tree ty.now ≡ types.Int t) }
{
    match ty {
        CType::Int(t) => Some(*t),
        CType::Void => None,
        CType::Pointer(_) => None,
        CType::Array(_, _) => None,
        CType::Struct(_) => None,
        CType::Function(_) => None,
    }
}

/// No case yet: what the switch around had.
pub fn begin_cases(world: &mut World) -> OuterCases
    ensures begun { world_of world.new ≡ stmts.without_cases (world_of world.old) }
    ensures kept { Keeps result (world_of world.old) }
{
    let none = Cases::new(world.alloc());
    let cases = mem::replace(&mut world.cases, none);
    let default = world.default;
    world.default = None;
    OuterCases { cases, default }
}

/// The cases of the switch around again.
pub fn end_cases(world: &mut World, outer: OuterCases)
    ensures { (before : worlds.World) → Keeps outer before → world_of world.new ≡ stmts.with_cases_of before (world_of world.old) }
{
    let OuterCases { cases, default } = outer;
    world.cases = cases;
    world.default = default;
}

// What an expression puts in front of the work: its parts from left to right, and behind them its own item.
#![tactic(auto, using(c_syntax::proofs::Trees::the_trees, c_machine_trees::proofs::SharedTrees::the_shared_trees))]

ghost use Rattle.std.specs.Prelude.{◌≡◌, [], ◌∷◌, IfOk, OnOk, Some};
ghost use Rattle.c_machine_trees.specs.Expressions.{expr_tree, exprs_tree, place_tree};
ghost use Rattle.c_steps.specs.Calls.{at_end, evals};
ghost use Rattle.c_steps.specs.Expressions.{parts_of, place_scalar as scalar_there, value_scalar as scalar_of_value};
ghost use Rattle.c_steps.specs.Work as steps;
ghost use Rattle.c_syntax.specs.Program.{TProgramTree, tprogram_tree};
ghost use Rattle.c_syntax.specs.TypedParts.{tlvalue_pos};
ghost use Rattle.c_syntax.specs.Types.{ctype_tree};
ghost use Rattle.c_machine_trees.specs.Shapes.{HasOneOperand};
ghost use Rattle.c_machine_work.specs.Shapes.{UsesPlace};
ghost use Rattle.c_machine_work.specs.Views.{item_of};
ghost use Rattle.c_machine_work.specs.Works.{work_of};

use crate::ends::end_of_call;
use crate::items::Item;
use crate::scalars::{place_pos, place_scalar, value_scalar};
use crate::work::Work;
use block_mem::Scalar;
use c_machine_trees::{SharedExpr, SharedExprs, SharedPlace};
use c_syntax::{CType, Pos, StepTime, StepWay, Stride, TBinaryOp, TProgram};
use c_values::scalar_of;
use std::alloc::AllocError as NoMemory;
use std::rc::Rc;

impl Work {
    /// The evaluation of an expression is put in front.
    pub(crate) fn put_eval(&mut self, e: &Rc<SharedExpr>) -> Result<(), NoMemory>
        ensures { OnOk result (work_of self.new ≡ steps.Eval (expr_tree e.now.value) ∷ work_of self.old) }
    {
        self.put(Item::Eval(e.clone()?))
    }

    fn put_addr(&mut self, place: &Rc<SharedPlace>) -> Result<(), NoMemory>
        ensures { OnOk result (work_of self.new ≡ steps.Addr (place_tree place.now.value) ∷ work_of self.old) }
    {
        self.put(Item::Addr(place.clone()?))
    }

    // An expression, and the item that takes its value.
    pub(crate) fn put_eval_then(&mut self, e: &Rc<SharedExpr>, item: Item) -> Result<(), NoMemory>
        ensures { OnOk result (work_of self.new ≡ steps.Eval (expr_tree e.now.value) ∷ item_of item ∷ work_of self.old) }
    {
        self.put(item)?;
        self.put_eval(e)
    }

    // A place, and the item that takes it.
    fn put_addr_then(&mut self, place: &Rc<SharedPlace>, item: Item) -> Result<(), NoMemory>
        ensures { OnOk result (work_of self.new ≡ steps.Addr (place_tree place.now.value) ∷ item_of item ∷ work_of self.old) }
    {
        self.put(item)?;
        self.put_addr(place)
    }

    /// The parts of the expression, and its own item behind them, are put in front. Constants and
    /// inputs have no parts.
    pub fn put_parts(&mut self, program: &TProgram, e: &SharedExpr) -> Result<(), NoMemory>
        ensures { OnOk result (work_of self.new ≡ parts_of (tprogram_tree program.now) (expr_tree e.now) (work_of self.old)) }
    {
        match e {
            SharedExpr::Const { .. } | SharedExpr::Null { .. } | SharedExpr::Any { .. } => Ok(()),
            SharedExpr::Load { .. } | SharedExpr::AddressOf { .. } => self.put_use(e),
            SharedExpr::Decay { .. } | SharedExpr::Whole { .. } => self.put_use(e),
            SharedExpr::Assign { .. } | SharedExpr::AssignStruct { .. } => self.put_use(e),
            SharedExpr::Compound { .. } | SharedExpr::Step { .. } => self.put_use(e),
            SharedExpr::Unary { .. } | SharedExpr::Convert { .. } => self.put_operand(e),
            SharedExpr::Assume { .. } | SharedExpr::Assert { .. } => self.put_operand(e),
            SharedExpr::Binary {
                pos,
                op,
                left,
                right,
            } => self.put_operands(*pos, *op, left, right),
            SharedExpr::And { pos, left, right } => self.put_and(*pos, left, right),
            SharedExpr::Or { pos, left, right } => self.put_or(*pos, left, right),
            SharedExpr::Cond {
                pos,
                condition,
                then,
                otherwise,
                ..
            } => self.put_choice(*pos, condition, then, otherwise),
            SharedExpr::Comma { left, right, .. } => self.put_comma(left, right),
            SharedExpr::Call {
                pos,
                function,
                ty,
                used,
                args,
            } => self.put_call(program, *pos, *function, ty, *used, args),
        }
    }

    fn put_and(
        &mut self,
        pos: Pos,
        left: &Rc<SharedExpr>,
        right: &Rc<SharedExpr>,
    ) -> Result<(), NoMemory>
        ensures { OnOk result (work_of self.new ≡ steps.Eval (expr_tree left.now.value)
            ∷ steps.AndThen pos (scalar_of_value (expr_tree left.now.value)) (expr_tree right.now.value) ∷ work_of self.old) }
    {
        self.put(Item::AndThen(pos, value_scalar(left), right.clone()?))?;
        self.put_eval(left)
    }

    fn put_or(
        &mut self,
        pos: Pos,
        left: &Rc<SharedExpr>,
        right: &Rc<SharedExpr>,
    ) -> Result<(), NoMemory>
        ensures { OnOk result (work_of self.new ≡ steps.Eval (expr_tree left.now.value)
            ∷ steps.OrElse pos (scalar_of_value (expr_tree left.now.value)) (expr_tree right.now.value) ∷ work_of self.old) }
    {
        self.put(Item::OrElse(pos, value_scalar(left), right.clone()?))?;
        self.put_eval(left)
    }

    // An operator's operands from left to right, and its item.
    fn put_operands(
        &mut self,
        pos: Pos,
        op: TBinaryOp,
        left: &Rc<SharedExpr>,
        right: &Rc<SharedExpr>,
    ) -> Result<(), NoMemory>
        ensures { OnOk result (work_of self.new
            ≡ steps.Eval (expr_tree left.now.value) ∷ steps.Eval (expr_tree right.now.value) ∷ steps.Bin pos op ∷ work_of self.old) }
    {
        self.put(Item::Bin(pos, op))?;
        self.put_eval(right)?;
        self.put_eval(left)
    }

    fn put_choice(
        &mut self,
        pos: Pos,
        condition: &Rc<SharedExpr>,
        then: &Rc<SharedExpr>,
        otherwise: &Rc<SharedExpr>,
    ) -> Result<(), NoMemory>
        ensures { OnOk result (work_of self.new ≡ steps.Eval (expr_tree condition.now.value)
            ∷ steps.Pick pos (scalar_of_value (expr_tree condition.now.value)) (expr_tree then.now.value) (expr_tree otherwise.now.value)
            ∷ work_of self.old) }
    {
        self.put(pick(pos, value_scalar(condition), then, otherwise)?)?;
        self.put_eval(condition)
    }

    // The left side's value is dropped.
    fn put_comma(&mut self, left: &Rc<SharedExpr>, right: &Rc<SharedExpr>) -> Result<(), NoMemory>
        ensures { OnOk result (work_of self.new
            ≡ steps.Eval (expr_tree left.now.value) ∷ steps.Drop ∷ steps.Eval (expr_tree right.now.value) ∷ work_of self.old) }
    {
        self.put_eval(right)?;
        self.put_eval_then(left, Item::Drop)
    }

    // An expression with one operand, which is evaluated first.
    fn put_operand(&mut self, e: &SharedExpr) -> Result<(), NoMemory>
        requires { HasOneOperand (expr_tree e.now) }
        ensures { (program : TProgramTree) → OnOk result (work_of self.new ≡ parts_of program (expr_tree e.now) (work_of self.old)) }
    {
        match e {
            SharedExpr::Unary { pos, op, operand } => {
                self.put_eval_then(operand, Item::Un(*pos, *op, value_scalar(operand)))
            }
            SharedExpr::Convert { ty, operand, .. } => {
                self.put_eval_then(operand, Item::Conv(scalar_of(ty)))
            }
            SharedExpr::Assume { pos, operand } => {
                self.put_eval_then(operand, Item::Keep(*pos, value_scalar(operand)))
            }
            SharedExpr::Assert { pos, operand } => {
                self.put_eval_then(operand, Item::Sure(*pos, value_scalar(operand)))
            }
            _ => unreachable!(),
        }
    }

    // An expression that uses a place, which is taken first.
    fn put_use(&mut self, e: &SharedExpr) -> Result<(), NoMemory>
        requires { UsesPlace (expr_tree e.now) }
        ensures { (program : TProgramTree) → OnOk result (work_of self.new ≡ parts_of program (expr_tree e.now) (work_of self.old)) }
    {
        match e {
            SharedExpr::AddressOf { place, .. } | SharedExpr::Decay { place, .. } => {
                self.put_addr(place)
            }
            SharedExpr::Load { place, .. } => {
                self.put_addr_then(place, Item::LoadAt(place_pos(place), place_scalar(place)))
            }
            SharedExpr::Whole { place, .. } => {
                self.put_addr_then(place, Item::Named(place_pos(place)))
            }
            SharedExpr::Assign { place, value, .. } => self.put_store(place, value),
            SharedExpr::AssignStruct {
                extent,
                place,
                source,
                ..
            } => self.put_write(place, source, Item::CopyAt(place_pos(place), *extent)),
            SharedExpr::Compound {
                pos,
                op,
                place,
                value,
            } => self.put_write(place, value, modifying(*pos, *op, place)),
            SharedExpr::Step {
                pos,
                time,
                way,
                stride,
                place,
            } => self.put_step(*pos, *time, *way, *stride, place),
            _ => unreachable!(),
        }
    }

    // A place, then the scalar that is stored there.
    fn put_store(&mut self, place: &Rc<SharedPlace>, value: &Rc<SharedExpr>) -> Result<(), NoMemory>
        ensures { OnOk result (work_of self.new ≡ steps.Addr (place_tree place.now.value) ∷ steps.Eval (expr_tree value.now.value)
            ∷ steps.StoreAt (tlvalue_pos (place_tree place.now.value)) (scalar_there (place_tree place.now.value)) ∷ work_of self.old) }
    {
        let item = Item::StoreAt(place_pos(place), place_scalar(place));
        self.put_write(place, value, item)
    }

    // A place, then what is written there, and the item that writes it.
    fn put_write(
        &mut self,
        place: &Rc<SharedPlace>,
        value: &Rc<SharedExpr>,
        item: Item,
    ) -> Result<(), NoMemory>
        ensures { OnOk result (work_of self.new
            ≡ steps.Addr (place_tree place.now.value) ∷ steps.Eval (expr_tree value.now.value) ∷ item_of item ∷ work_of self.old) }
    {
        self.put(item)?;
        self.put_eval(value)?;
        self.put_addr(place)
    }

    fn put_step(
        &mut self,
        pos: Pos,
        time: StepTime,
        way: StepWay,
        stride: Stride,
        place: &Rc<SharedPlace>,
    ) -> Result<(), NoMemory>
        ensures { OnOk result (work_of self.new ≡ steps.Addr (place_tree place.now.value)
            ∷ steps.StepAt pos (tlvalue_pos (place_tree place.now.value)) (scalar_there (place_tree place.now.value)) time way stride
            ∷ work_of self.old) }
    {
        let item = Item::StepAt {
            pos,
            place: place_pos(place),
            ty: place_scalar(place),
            time,
            way,
            stride,
        };
        self.put_addr_then(place, item)
    }

    // The arguments from left to right, and then the entry into the function.
    fn put_call(
        &mut self,
        program: &TProgram,
        pos: Pos,
        function: u64,
        ty: &CType,
        used: bool,
        args: &SharedExprs,
    ) -> Result<(), NoMemory>
        ensures { OnOk result (work_of self.new ≡ evals (exprs_tree args.now)
            (steps.Enter (Some pos) function (at_end (tprogram_tree program.now) function (ctype_tree ty.now) used) ∷ work_of self.old)) }
    {
        let end = end_of_call(program, function, ty, used);
        self.put(Item::Enter(Some(pos), function, end))?;
        let args = args.as_slice();
        let mut rest = args.len();
        while rest > 0 {
            rest -= 1;
            self.put_eval(&args[rest])?;
        }
        Ok(())
    }
}

fn pick(
    pos: Pos,
    ty: Option<Scalar>,
    then: &Rc<SharedExpr>,
    otherwise: &Rc<SharedExpr>,
) -> Result<Item, NoMemory>
    ensures { IfOk result (λ item. item_of item ≡ steps.Pick pos ty (expr_tree then.now.value) (expr_tree otherwise.now.value)) }
{
    let then = then.clone()?;
    Ok(Item::Pick(pos, ty, then, otherwise.clone()?))
}

// `op=` at a place.
fn modifying(pos: Pos, op: TBinaryOp, place: &SharedPlace) -> Item
    ensures { item_of result ≡ steps.Modify pos (tlvalue_pos (place_tree place.now)) (scalar_there (place_tree place.now)) op }
{
    Item::Modify {
        pos,
        place: place_pos(place),
        ty: place_scalar(place),
        op,
    }
}

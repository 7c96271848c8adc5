// The steps of the powers ramp, written out.
#![tactic(auto)]

ghost use Rattle.std.specs.Prelude.{◌≡◌, ◌++◌, ◌∷◌, [], ◌<◌, ◌≤ℤ◌, ◌-ℤ◌, neg_ℤ, pos, ◌^◌, OnOk};
ghost use Rattle.num_api.specs.Powers.{negations_from, power_steps, powers_from};

use std::alloc::AllocError as NoMemory;

/// Puts out the steps of the powers ramp.
pub(crate) fn add_powers(steps: &mut Vec<i128>) -> Result<(), NoMemory>
    ensures { OnOk result (steps.new.items ≡ steps.old.items ++ power_steps) }
{
    add_negations(steps)?;
    steps.push(0)?;
    add_positives(steps)
}

fn add_negations(steps: &mut Vec<i128>) -> Result<(), NoMemory>
    ensures { OnOk result (steps.new.items ≡ steps.old.items ++ negations_from 64) }
{
    let mut exponent = 64_u32;
    while exponent > 0 {
        add_negation(exponent, steps)?;
        exponent -= 1;
    }
    Ok(())
}

fn add_positives(steps: &mut Vec<i128>) -> Result<(), NoMemory>
    ensures { OnOk result (steps.new.items ≡ steps.old.items ++ powers_from 1 64) }
{
    let mut exponent = 1_u32;
    while exponent < 65 {
        add_positive(exponent, steps)?;
        exponent += 1;
    }
    Ok(())
}

fn add_negation(exponent: u32, steps: &mut Vec<i128>) -> Result<(), NoMemory>
    requires { exponent < 65 }
    ensures { OnOk result (steps.new.items
        ≡ steps.old.items ++ neg_ℤ (pos (2 ^ exponent)) ∷ neg_ℤ (pos (2 ^ exponent) -ℤ pos 1) ∷ []) }
{
    let power = power_of_two(exponent);
    steps.push(-power)?;
    steps.push(-(power - 1))?;
    Ok(())
}

fn add_positive(exponent: u32, steps: &mut Vec<i128>) -> Result<(), NoMemory>
    requires { exponent < 65 }
    ensures { OnOk result (steps.new.items ≡ steps.old.items ++ (pos (2 ^ exponent) -ℤ pos 1) ∷ pos (2 ^ exponent) ∷ []) }
{
    let power = power_of_two(exponent);
    steps.push(power - 1)?;
    steps.push(power)?;
    Ok(())
}

fn power_of_two(exponent: u32) -> i128
    requires { exponent < 65 }
    ensures value { result ≡ pos (2 ^ exponent) }
    ensures low { pos 1 ≤ℤ result }
    ensures high { result ≤ℤ pos (2 ^ 64) }
{
    1_i128 << exponent
}

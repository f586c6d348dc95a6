ghost use Rattle.std.specs.Prelude.{◌≡◌, ◌++◌, ◌∷◌, [], IfOk, OnOk};

use std::alloc::{AllocError as OutOfMemory, Global};

/// Boxes of four values.
pub fn four<P: Drop, Q: Drop, R: Drop, S: Drop>(
    alloc: Global,
    first: P,
    second: Q,
    third: R,
    fourth: S,
) -> Result<(Box<P>, Box<Q>, Box<R>, Box<S>), OutOfMemory>
    ensures first { IfOk result (λ boxes. boxes.0.value ≡ first) }
    ensures second { IfOk result (λ boxes. boxes.1.value ≡ second) }
    ensures third { IfOk result (λ boxes. boxes.2.value ≡ third) }
    ensures fourth { IfOk result (λ boxes. boxes.3.value ≡ fourth) }
{
    let (first, second) = two(alloc, first, second)?;
    let (third, fourth) = two(alloc, third, fourth)?;
    Ok((first, second, third, fourth))
}

/// Boxes of two values.
pub fn two<P: Drop, Q: Drop>(
    alloc: Global,
    first: P,
    second: Q,
) -> Result<(Box<P>, Box<Q>), OutOfMemory>
    ensures first { IfOk result (λ boxes. boxes.0.value ≡ first) }
    ensures second { IfOk result (λ boxes. boxes.1.value ≡ second) }
{
    let first = Box::new(alloc, first)?;
    let second = Box::new(alloc, second)?;
    Ok((first, second))
}

/// Adds four values at the end of a list.
pub fn push_four<U: Drop>(
    list: &mut Vec<U>,
    first: U,
    second: U,
    third: U,
    fourth: U,
) -> Result<(), OutOfMemory>
    ensures { OnOk result (list.new.items ≡ list.old.items ++ (first ∷ second ∷ third ∷ fourth ∷ [])) }
{
    list.push(first)?;
    list.push(second)?;
    list.push(third)?;
    list.push(fourth)?;
    Ok(())
}

/// Adds two values at the end of a list.
pub fn push_two<U: Drop>(list: &mut Vec<U>, first: U, second: U) -> Result<(), OutOfMemory>
    ensures { OnOk result (list.new.items ≡ list.old.items ++ (first ∷ second ∷ [])) }
{
    list.push(first)?;
    list.push(second)?;
    Ok(())
}

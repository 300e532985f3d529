//! Lists by number.

ghost use Rattle.std.specs.Prelude.{◌≡◌, ◌==◌, ◌<◌, ◌^◌, ◌++◌, ◌∷◌, [], ℕ, length, OnOk};
ghost use Rattle.std.specs.Prelude.{if◌then◌else◌};
ghost use Rattle.worklist.specs.Lists.{listed};

use std::alloc::{AllocError, Global};

/// Makes room for a list of the number.
fn reserve<T: Drop>(alloc: Global, lists: &mut Vec<Vec<T>>, number: usize) -> Result<(), AllocError>
    requires { number < 2 ^ 32 }
    ensures room { OnOk result (number < length lists.new.items) }
    ensures same { OnOk result ((k : ℕ) → listed lists.new.items k ≡ listed lists.old.items k) }
{
    while lists.len() <= number {
        let list = Vec::new(alloc);
        lists.push(list)?;
    }
    Ok(())
}

/// Puts the item last in the list of the number.
pub fn add_at<T: Drop>(
    alloc: Global,
    lists: &mut Vec<Vec<T>>,
    number: u32,
    item: T,
) -> Result<(), AllocError>
    ensures { OnOk result ((k : ℕ)
        → listed lists.new.items k
        ≡ (if k == number then listed lists.old.items k
        ++ item ∷ [] else listed lists.old.items k)) }
{
    let place = number as usize;
    reserve(alloc, lists, place)?;
    lists[place].push(item)?;
    Ok(())
}

/// The list of the number, empty where there is none.
pub fn list_at<T>(lists: &[Vec<T>], number: u32) -> &[T]
    ensures { result.now ≡ listed lists.now number }
{
    let place = number as usize;
    if place < lists.len() {
        lists[place].as_slice()
    } else {
        &[]
    }
}

#[cfg(test)]
mod tests {
    use super::*;

    #[test]
    fn adds_last(rt: HostRuntime) {
        let alloc = rt.alloc();
        let mut lists = Vec::new(alloc);
        assert!(rt; add_at(alloc, &mut lists, 2, 7u32).is_ok());
        assert!(rt; add_at(alloc, &mut lists, 2, 5u32).is_ok());
        assert!(rt; list_at(lists.as_slice(), 2) == [7u32, 5].as_slice());
        assert!(rt; list_at(lists.as_slice(), 1).is_empty());
        assert!(rt; list_at(lists.as_slice(), 9).is_empty());
    }
}

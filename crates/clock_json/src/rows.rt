//! Rows of numbers of two bytes each.
ghost use Rattle.std.specs.Prelude.{◌≡◌, map, IsTrue, IfOk};
ghost use Rattle.clock_json.specs.Rows.{shortened};

use clock_device::{Items, NoMemory};
use std::alloc::Global;

/// The largest number of two bytes.
const MOST_SHORT: u64 = 65_535;

/// Rows of numbers of two bytes.
pub type ShortRows = Items<Items<u16>>;

/// Makes rows of the numbers in `lists`. A number above 65,535 becomes 65,535.
pub fn short_rows(alloc: Global, lists: &[Items<u64>]) -> Result<ShortRows, NoMemory>
    ensures { IfOk result (λ rows. rows ≡ map (map shortened) lists.now) }
{
    let mut rows = Items::new(alloc);
    for list in lists {
        let (row, _) = short_row(alloc, list.as_slice())?;
        rows.push(row)?;
    }
    Ok(rows)
}

/// Makes a row of `numbers`, and returns whether all are at most 65,535. A number above becomes
/// 65,535. The loop visits all numbers, since a loop with an early end is slow.
pub(crate) fn short_row(alloc: Global, numbers: &[u64]) -> Result<(Items<u16>, bool), NoMemory>
    ensures row { IfOk result (λ r. r.0 ≡ map shortened numbers.now) }
    ensures same { IfOk result (λ r. IsTrue r.1 → map shortened numbers.now ≡ numbers.now) }
{
    let mut row = vec![in alloc; 0; numbers.len()]?;
    let mut has_long = false;
    for (place, number) in numbers.iter().enumerate() {
        has_long |= *number > MOST_SHORT;
        row[place] = (*number).min(MOST_SHORT) as u16;
    }
    Ok((Items::from_vec(row), !has_long))
}

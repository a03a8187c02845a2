//! Writes one column of a row-major array of shape (3, 4) and the rest of the array in turn, through two regions.
ghost use Rattle.std.specs.Prelude.{◌≡◌, length};
ghost use Rattle.nd_region.specs.Region.{elements_of, IsSameBorrow};
ghost use Rattle.uses_nd_region.specs.WritesToEvenOddAndColumns.{with_each, HasEach, HasFirst, second_column, other_columns, ones_in_second_column};

use nd_region::{Region, with_region};

#[tactic(auto, using(nd_region::proofs::RegionContentsForCallers::written_has))]
fn put_rows<'a>(
    mut column: Region<'a, u64>,
    mut rest: Region<'a, u64>,
) -> (Region<'a, u64>, Region<'a, u64>, ())
    requires { HasEach column second_column × HasEach rest other_columns }
    ensures first { result.0 ≡ with_each column.entry second_column 1 }
    ensures others { result.1 ≡ with_each rest.entry other_columns 0 }
{
    rest.set(0, 0);
    column.set(1, 1);
    rest.set(2, 0);
    rest.set(3, 0);
    rest.set(4, 0);
    column.set(5, 1);
    rest.set(6, 0);
    rest.set(7, 0);
    rest.set(8, 0);
    column.set(9, 1);
    rest.set(10, 0);
    rest.set(11, 0);
    (column, rest, ())
}

fn by_column<'a>(mut region: Region<'a, u64>) -> (Region<'a, u64>, ())
    requires { HasFirst 12 region }
    ensures same { IsSameBorrow region.entry result.0 }
    ensures items { elements_of result.0 ≡ ones_in_second_column }
{
    region.split_with(1, &[3], &[4], put_rows);
    (region, ())
}

/// Writes 1 to the elements of the second column of a row-major table of three rows and four columns, and 0 to all
/// others.
pub fn fill_column(slice: &mut [u64])
    requires { length slice.old ≡ 12 }
    ensures { slice.new ≡ ones_in_second_column }
{
    with_region(slice, by_column);
}

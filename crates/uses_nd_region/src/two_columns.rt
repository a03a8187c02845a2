//! Splits the second column off a row-major array of shape (3, 4), then the fourth column off what is left, and writes
//! to both.
ghost use Rattle.std.specs.Prelude.{◌≡◌, length};
ghost use Rattle.nd_region.specs.Region.{elements_of, IsSameBorrow};
ghost use Rattle.uses_nd_region.specs.WritesToEvenOddAndColumns.{with_each, each_set, HasEach, HasFirst, HasAllButSecondColumn, with_both_columns, second_column, fourth_column};

use nd_region::{Region, with_region};

#[tactic(auto, using(nd_region::proofs::RegionContentsForCallers::written_has))]
fn put_fourth<'a>(
    mut fourth: Region<'a, u64>,
    others: Region<'a, u64>,
) -> (Region<'a, u64>, Region<'a, u64>, ())
    requires { HasEach fourth fourth_column }
    ensures { (result.0 ≡ with_each fourth.entry fourth_column 2) × (result.1 ≡ others.entry) }
{
    fourth.set(3, 2);
    fourth.set(7, 2);
    fourth.set(11, 2);
    (fourth, others, ())
}

#[tactic(auto, using(nd_region::proofs::RegionContentsForCallers::written_has))]
fn put_second<'a>(
    mut second: Region<'a, u64>,
    mut others: Region<'a, u64>,
) -> (Region<'a, u64>, Region<'a, u64>, ())
    requires { HasEach second second_column × HasAllButSecondColumn others }
    ensures second { result.0 ≡ with_each second.entry second_column 1 }
    ensures same { IsSameBorrow others.entry result.1 }
    ensures fourth { elements_of result.1 ≡ each_set (elements_of others.entry) fourth_column 2 }
{
    others.split_with(3, &[3], &[4], put_fourth);
    second.set(1, 1);
    second.set(5, 1);
    second.set(9, 1);
    (second, others, ())
}

fn by_columns<'a>(mut region: Region<'a, u64>) -> (Region<'a, u64>, ())
    requires { HasFirst 12 region }
    ensures same { IsSameBorrow region.entry result.0 }
    ensures items { elements_of result.0 ≡ with_both_columns (elements_of region.entry) }
{
    region.split_with(1, &[3], &[4], put_second);
    (region, ())
}

/// Writes 1 to the elements of the second column of a row-major table of three rows and four columns, and 2 to those of
/// the fourth.
pub fn fill_columns(slice: &mut [u64])
    requires { length slice.old ≡ 12 }
    ensures { slice.new ≡ with_both_columns slice.old }
{
    with_region(slice, by_columns);
}

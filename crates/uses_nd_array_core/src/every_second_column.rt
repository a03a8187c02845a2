//! Paints every second column of a grid through one view.
#![tactic(auto, using(nd_array_core::proofs::AxesOfDimensionTypes::known_axes))]

ghost use Rattle.std.specs.Prelude.{◌≡◌, length, OnOk};
ghost use Rattle.nd_array_core.specs.Prelude.{meaning_of, shape_of, element_at, ClonesAreEqual};
ghost use Rattle.uses_nd_array_core.specs.RowsColumnsAndBorders.{EvenColumnsPainted};

use nd_array_core::prelude::*;

const ALL: SliceInfoElem = SliceInfoElem::Slice {
    start: 0,
    end: None,
    step: 1,
};

const EVERY_SECOND: SliceInfoElem = SliceInfoElem::Slice {
    start: 0,
    end: None,
    step: 2,
};

/// Paints the columns 0, 2, 4 and so on of `grid` in `colour`. The other columns keep their elements.
pub fn paint_every_second_column<A: Clone + Drop, S: DataMut<Elem = A>>(
    grid: &mut ArrayBase<S, IxDyn>,
    colour: A,
) -> Result<(), NoMemory>
    requires two { length (shape_of grid.old) ≡ 2 }
    requires clones { ClonesAreEqual A.is_clone colour }
    ensures shape { shape_of grid.new ≡ shape_of grid.old }
    ensures painted { OnOk result (EvenColumnsPainted colour (meaning_of grid.old) (element_at grid.new)) }
{
    grid.fill_slice([ALL, EVERY_SECOND].as_slice(), colour)
}

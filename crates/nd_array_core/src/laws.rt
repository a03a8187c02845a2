//! Laws that follow from the contracts: of layout calls, for any shape and elements; of places; and of quotients, for
//! callers that divide. Nothing here runs: the law is what each function's `ensures` clause says.

ghost use Rattle.std.specs.Prelude.{◌↔◌, ◌≡◌, ◌<◌, ◌≤◌, ◌+◌, ◌*◌, ◌/◌, ◌%◌, ◌^◌, ℕ, pos, max, min, fold, List, [], ◌∷◌, length, reverse, IsTrue};
ghost use Rattle.std.specs.Int.{w64, cast_signed, int_wrapping_add};
ghost use Rattle.nd_array_core.specs.LayoutLaws.{PermutedBack, ReversedTwice, InvertedTwice, InsertedAndRemoved, SlicedTwice, PathIsOneMap, CollapsedListsLeadInside, CollapsesLeadInside, CoordinatesLeadInside, ExchangesLeadInside, LeadsInside, ListsLeadInside, LowerPartsLeadInside, NothingOutside, PermutationsLeadInside, SlicesLeadInside, UpperPartsLeadInside, IndexesHavePlaces, ShowsStored, DistinctPlaces};
ghost use Rattle.nd_array_core.specs.InjectiveIndexMaps.{SlicesNameOnce, ListsNameOnce, CollapsedListsNameOnce, EachSlicesNameOnce, PermutationsNameOnce, ReversalsNameOnce, ExchangesNameOnce, InversionsNameOnce, CollapsesNameOnce, CoordinatesNameOnce, LowerPartsNameOnce, UpperPartsNameOnce, InsertionsNameOnce, SqueezesNameOnce, MergesNameOnce, DiagonalsNameOnce, ReshapesNameOnce, PathsNameOnce};
ghost use Rattle.nd_array_core.specs.reshape.ElementsAsSlice.{IsStandardArray, LiesByRank, MemoryOrderReorders};
ghost use Rattle.nd_shape_and_slice.specs.LayoutIndexMaps.{inverted_index, inserted_shape, inserted_index, diagonal_length, diagonal_index};
ghost use Rattle.nd_shape_and_slice.specs.Broadcast.{broadcasts, broadcast_index};
ghost use Rattle.nd_array_core.specs.ConcatenationAndSplit.{SplitAndJoined};
ghost use Rattle.nd_elements.specs.ShapeAndElements.{row_major_elements, Meaning};
ghost use Rattle.nd_array_core.specs.reshape.ReshapeLaws.{RegroupedBack, ReshapedKeepsOrder, RanksAreBelow, ListsByRank, JoinsFirstAxes, JoinsRows};
ghost use Rattle.nd_array_core.specs.reshape.ReshapeByRank.{IsShapeOf};
ghost use Rattle.nd_array_core.specs.EqualityAndHashing.{EqualByCells, EqualIsSame};
ghost use Rattle.nd_array_core.specs.reshape.EitherArray.{IsServedInItsOrder};
ghost use Rattle.nd_array_core.specs.ArrayMeaning.{element_at, meaning_of, place_at, placed_array, shape_of};
ghost use Rattle.nd_shape_and_slice.specs.ShapesAndIndexOrders.{size_of, HasCheckedSize};
ghost use Rattle.nd_array_core.specs.elements.BroadcastPairs.{IsItselfUnder};
ghost use Rattle.nd_array_core.specs.growth.AppendedSlicedBack.{AppendedAndSliced};
ghost use Rattle.nd_array_core.specs.growth.Append.{FitsAfter, elements_after};
ghost use Rattle.nd_array_core.specs.along.AxisMaps.{LanesAreListed};
ghost use Rattle.nd_array_core.specs.along.AxisFolds.{AreFoldedBy};
ghost use Rattle.nd_array_core.specs.SumsCountsAndExtrema.{AreLaneSums, AreSignedLaneSums, AreLaneMaxima, AreLaneMinima, sum_over, value_or_0, bits_or_0};
ghost use Rattle.nd_shape_and_slice.specs.Squeeze.{squeezed_shape, squeezed_index};

use crate::base::array::ArrayBase;
use nd_elements::storage::{Data, DataMut};
use nd_shape_and_slice::{Axis, Dimension};

/// Permuting axes and permuting them back gives the same meaning.
#[tactic(auto, using(crate::proofs::law_lemmas::LayoutLaws::permuted_back))]
pub fn permuted_back<A>()
    ensures { PermutedBack A }
{}

/// Axes reversed twice give the same meaning.
#[tactic(auto, using(crate::proofs::law_lemmas::LayoutLaws::reversed_twice))]
pub fn reversed_twice<A>()
    ensures { ReversedTwice A }
{}

/// An axis inverted twice gives the same meaning.
pub fn inverted_twice<A>()
    ensures { InvertedTwice A }
{}

/// Inserting an axis and removing it gives the same meaning.
#[tactic(auto, using(crate::proofs::law_lemmas::LayoutLaws::inserted_and_removed))]
pub fn inserted_and_removed<A>()
    ensures { InsertedAndRemoved A }
{}

/// The map from indexes to indexes of a slice of a slice of one axis is the composition of the maps of both slices.
#[tactic(auto, using(crate::proofs::law_lemmas::LayoutLaws::sliced_twice))]
pub fn sliced_twice<A>()
    ensures { SlicedTwice A }
{}

/// The parts of a split, joined along its axis, are the array.
#[tactic(auto, using(crate::proofs::growth_lemmas::JoinedParts::split_and_joined))]
pub fn split_and_joined<A>()
    ensures { SplitAndJoined A }
{}

/// After an append, the slice of the axis up to its old length shows the elements from before.
#[tactic(auto, using(crate::proofs::law_lemmas::SliceUndoesAppend::appended_and_sliced))]
pub fn appended_and_sliced<A>()
    ensures { AppendedAndSliced A }
{}

/// If `fits_after` holds of two shapes, they have as many axes, and if the second has no element, appending it adds
/// none.
pub fn shapes_after()
    ensures axes { (ns ms : List ℕ) (axis : ℕ) → FitsAfter ns ms axis → length ms ≡ length ns }
    ensures none { (ns ms : List ℕ) (axis : ℕ) → FitsAfter ns ms axis → size_of ms ≡ 0 → elements_after ns ms axis ≡ 0 }
{}

/// A reshape and then a reshape back in the same order give the same shape and elements.
pub fn regrouped_back<A>()
    ensures { RegroupedBack A }
{}

/// A reshape in row-major order keeps the list of the elements in row-major order.
#[tactic(auto, using(crate::proofs::law_lemmas::ReshapeKeepsOrder::reshaped_keeps_order))]
pub fn reshaped_keeps_order<A>()
    ensures { ReshapedKeepsOrder A }
{}

/// A path of layout steps is itself one map: the composition of its steps' maps.
#[tactic(auto, using(crate::proofs::law_lemmas::LayoutLaws::path_is_one_map))]
pub fn path_is_one_map<A>()
    ensures { PathIsOneMap A }
{}

/// The map of each layout call leads from the indexes of its result to indexes of the array, so a list of calls is a
/// path (`path_is_one_map`). A slice for each axis is as many slices of one axis.
pub fn maps_lead_inside()
    ensures sliced { SlicesLeadInside }
    ensures listed { ListsLeadInside }
    ensures collapsed_list { CollapsedListsLeadInside }
    ensures permuted { PermutationsLeadInside }
    ensures reversed { (ns : List ℕ) → LeadsInside (reverse ns) reverse ns }
    ensures swapped { ExchangesLeadInside }
    ensures inverted { (ns : List ℕ) (a : ℕ) → a < length ns → LeadsInside ns (inverted_index ns a) ns }
    ensures collapsed { CollapsesLeadInside }
    ensures lower { LowerPartsLeadInside }
    ensures upper { UpperPartsLeadInside }
    ensures indexed { CoordinatesLeadInside }
    ensures inserted { (ns : List ℕ) (a : ℕ) → a ≤ length ns → LeadsInside (inserted_shape ns a) (inserted_index a) ns }
    ensures squeezed { (ns : List ℕ) → LeadsInside (squeezed_shape ns) (squeezed_index ns) ns }
    ensures diagonal { (ns : List ℕ) → LeadsInside (diagonal_length ns ∷ []) (diagonal_index ns) ns }
    ensures broadcast { (ns to : List ℕ) → IsTrue (broadcasts ns to) → LeadsInside to (broadcast_index ns to) ns }
{}

/// No layout call except a broadcast gives one element two indexes: no two indexes of the result lead to the same index
/// of the array. So each element of a read-only view has one index too, however many such calls made the view
/// (`paths`).
pub fn maps_name_once()
    ensures sliced { SlicesNameOnce }
    ensures listed { ListsNameOnce }
    ensures collapsed_list { CollapsedListsNameOnce }
    ensures each_sliced { EachSlicesNameOnce }
    ensures permuted { PermutationsNameOnce }
    ensures reversed { ReversalsNameOnce }
    ensures swapped { ExchangesNameOnce }
    ensures inverted { InversionsNameOnce }
    ensures collapsed { CollapsesNameOnce }
    ensures indexed { CoordinatesNameOnce }
    ensures lower { LowerPartsNameOnce }
    ensures upper { UpperPartsNameOnce }
    ensures inserted { InsertionsNameOnce }
    ensures squeezed { SqueezesNameOnce }
    ensures merged { MergesNameOnce }
    ensures diagonal { DiagonalsNameOnce }
    ensures reshaped { ReshapesNameOnce }
    ensures paths { PathsNameOnce }
{}

/// The elements in the order of their places, as `as_slice_memory_order` gives them, are a reordering of the elements
/// in row-major order.
pub fn memory_order_reorders<A>()
    ensures { MemoryOrderReorders A }
{}

/// An array has no element outside its shape, which other laws require of their arguments.
#[tactic(auto, unfolding(crate::specs::ArrayMeaning::meaning_of))]
pub fn nothing_outside<S: Data, D: Dimension>(array: &ArrayBase<S, D>)
    ensures { NothingOutside (meaning_of array.now) }
{}

/// Each index inside an array's shape has a place, no other index has one, and the element is what is stored there.
#[tactic(auto, unfolding(crate::specs::ArrayMeaning::meaning_of, crate::specs::ArrayMeaning::memory_layout_of))]
pub fn elements_have_places<S: Data, D: Dimension>(array: &ArrayBase<S, D>)
    ensures places { IndexesHavePlaces (placed_array array.now) }
    ensures elements { ShowsStored (element_at array.now) (placed_array array.now) }
{}

/// An array is in the standard layout exactly where the places of any two indexes differ as their row-major ranks do.
/// With this law a task on a view, which knows its places, can tell.
#[tactic(auto, unfolding(crate::specs::ArrayMeaning::meaning_of, crate::specs::ArrayMeaning::memory_layout_of))]
pub fn standard_by_places<S: Data, D: Dimension>(array: &ArrayBase<S, D>)
    ensures { IsStandardArray array.now ↔ LiesByRank (shape_of array.now) (place_at array.now) }
{}

/// Distinct indexes of an owned array or a mutable view have distinct places.
#[tactic(auto, unfolding(crate::specs::ArrayMeaning::meaning_of, crate::specs::ArrayMeaning::memory_layout_of))]
pub fn distinct_places<S: DataMut, D: Dimension>(array: &ArrayBase<S, D>)
    ensures { DistinctPlaces (placed_array array.now) }
{}

/// The numbers `i` with `i / size` equal to `quotient` are those from `quotient * size` on, `size` of them. A caller
/// that divides by a variable calls this law for the quotient at hand.
#[tactic(auto, using(crate::proofs::law_lemmas::QuotientsByVariables::quotient_holds, crate::proofs::law_lemmas::QuotientsByVariables::quotient_of, crate::proofs::law_lemmas::QuotientsByVariables::before_quotient))]
pub fn quotients(size: usize, quotient: usize)
    requires { 0 < size }
    ensures equal { (i : ℕ) → i / size ≡ quotient → (quotient * size ≤ i) × (i < quotient * size + size) }
    ensures within { (i : ℕ) → quotient * size ≤ i → i < quotient * size + size → i / size ≡ quotient }
    ensures below { (i : ℕ) → i / size < quotient → i < quotient * size }
{}

/// The shape of an array has a checked size: a call that broadcasts to it asks for that.
#[tactic(auto, unfolding(crate::specs::ArrayMeaning::meaning_of))]
pub fn shape_is_checked<S: Data, D: Dimension>(array: &ArrayBase<S, D>)
    ensures { HasCheckedSize (shape_of array.now) }
{}

/// An array that is broadcast to its own shape stays as it is.
#[tactic(auto, unfolding(crate::specs::ArrayMeaning::meaning_of))]
pub fn broadcast_to_itself<S: Data, D: Dimension>(array: &ArrayBase<S, D>)
    ensures some { (to : List ℕ) → to ≡ shape_of array.now → IsTrue (broadcasts (shape_of array.now) to) }
    ensures elements { (to : List ℕ) → to ≡ shape_of array.now → IsItselfUnder to array.now }
{}

/// The lists that `as_slice` and `to_vec` return: they have the element of each index at its row-major rank, and each
/// such rank is below their length.
#[tactic(auto, unfolding(crate::specs::ArrayMeaning::meaning_of))]
pub fn elements_by_rank<S: Data, D: Dimension>(array: &ArrayBase<S, D>)
    ensures count { length (row_major_elements (meaning_of array.now)) ≡ size_of (shape_of array.now) }
    ensures below { RanksAreBelow (shape_of array.now) }
    ensures each { ListsByRank (meaning_of array.now) }
{}

/// The elements of a lane in row-major order are those that `fold_axis` goes over. So if a function folds each lane
/// that `map_axis` shows it, `map_axis` returns what `fold_axis` does.
#[tactic(auto, using(crate::proofs::along_lemmas::LanesAsViews::lane_listed))]
pub fn lanes_are_folded<A>()
    ensures { LanesAreListed A }
{}

/// If `fold_axis` adds up modulo 2^64 from 0, it returns at each index of the other axes the sum of the lane there
/// modulo 2^64. Call this law with the array, the axis and what `fold_axis` returned.
#[tactic(auto, using(crate::proofs::SumsOfFolds::known_sums))]
pub fn lanes_are_summed<S: Data<Elem = u64>, D: Dimension, Z: Data<Elem = u64>, E: Dimension>(
    array: &ArrayBase<S, D>,
    axis: Axis,
    sums: &ArrayBase<Z, E>,
)
    requires { AreFoldedBy (λ sum x. (sum + x) % 2 ^ 64) (shape_of array.now) (element_at array.now) axis.0 0 (element_at sums.now) }
    ensures { AreLaneSums (2 ^ 64) (meaning_of array.now) axis.0 (element_at sums.now) }
{}

/// If `fold_axis` adds up signed numbers with wrapping from 0, it returns at each index of the other axes the sum of
/// the bits of the lane there modulo 2^64, read as a signed number. Call this law with the array, the axis and what
/// `fold_axis` returned.
#[tactic(auto, using(crate::proofs::SumsOfFolds::known_sums))]
pub fn signed_lanes_are_summed<
    S: Data<Elem = i64>,
    D: Dimension,
    Z: Data<Elem = i64>,
    E: Dimension,
>(array: &ArrayBase<S, D>, axis: Axis, sums: &ArrayBase<Z, E>)
    requires { AreFoldedBy (int_wrapping_add w64) (shape_of array.now) (element_at array.now) axis.0 (pos 0) (element_at sums.now) }
    ensures { AreSignedLaneSums w64 (meaning_of array.now) axis.0 (element_at sums.now) }
{}

/// If `fold_axis` keeps the greater of two numbers, it returns at each index of the other axes the greatest of its
/// `init` and the elements of the lane there. Call this law with the array, the axis, that `init` as `first`, and what
/// `fold_axis` returned.
#[tactic(auto, using(crate::proofs::SumsOfFolds::known_sums))]
pub fn lanes_have_greatest<S: Data<Elem = u64>, D: Dimension, Z: Data<Elem = u64>, E: Dimension>(
    array: &ArrayBase<S, D>,
    axis: Axis,
    first: u64,
    greatest: &ArrayBase<Z, E>,
)
    requires { AreFoldedBy max (shape_of array.now) (element_at array.now) axis.0 first (element_at greatest.now) }
    ensures { AreLaneMaxima (meaning_of array.now) axis.0 first (element_at greatest.now) }
{}

/// If `fold_axis` keeps the less of two numbers, it returns at each index of the other axes the least of its `init` and
/// the elements of the lane there. Call this law with the array, the axis, that `init` as `first`, and what `fold_axis`
/// returned.
#[tactic(auto, using(crate::proofs::SumsOfFolds::known_sums))]
pub fn lanes_have_least<S: Data<Elem = u64>, D: Dimension, Z: Data<Elem = u64>, E: Dimension>(
    array: &ArrayBase<S, D>,
    axis: Axis,
    first: u64,
    least: &ArrayBase<Z, E>,
)
    requires { AreFoldedBy min (shape_of array.now) (element_at array.now) axis.0 first (element_at least.now) }
    ensures { AreLaneMinima (meaning_of array.now) axis.0 first (element_at least.now) }
{}

/// If `fold` adds up modulo 2^64 from 0, it returns the sum over all indexes modulo 2^64, whatever order it took. Call
/// this law with the array and with what `fold` returned.
#[tactic(auto, using(crate::proofs::SumsOfFolds::known_sums))]
pub fn elements_are_summed<S: Data<Elem = u64>, D: Dimension>(array: &ArrayBase<S, D>, sum: u64)
    requires { sum ≡ fold (λ sum x. (sum + x) % 2 ^ 64) 0 (row_major_elements (meaning_of array.now)) }
    ensures { sum ≡ sum_over (shape_of array.now) (λ i. value_or_0 (element_at array.now i)) % 2 ^ 64 }
{}

/// If `fold` adds up signed numbers with wrapping from 0, it returns the sum of the bits of all elements modulo 2^64,
/// read as a signed number, whatever order it took. Call this law with the array and with what `fold` returned.
#[tactic(auto, using(crate::proofs::SumsOfFolds::known_sums))]
pub fn signed_elements_are_summed<S: Data<Elem = i64>, D: Dimension>(
    array: &ArrayBase<S, D>,
    sum: i64,
)
    requires { sum ≡ fold (int_wrapping_add w64) (pos 0) (row_major_elements (meaning_of array.now)) }
    ensures { sum ≡ cast_signed w64 (sum_over (shape_of array.now) (λ i. bits_or_0 w64 (element_at array.now i)) % 2 ^ 64) }
{}

/// If an array's elements are contiguous in an order, some strides serve every shape of as many elements in that order:
/// a reshape then copies nothing. A caller whose elements have clones that may differ from them calls this law before
/// the reshape.
#[tactic(auto, unfolding(crate::specs::ArrayMeaning::meaning_of, crate::specs::ArrayMeaning::memory_layout_of))]
pub fn order_serves<S: Data, D: Dimension>(array: &ArrayBase<S, D>)
    ensures { IsServedInItsOrder array.now }
{}

/// If a reshape in row-major order joins the first two axes of an array into one, the new shape has as many elements,
/// the length of the joined axis is below 2^63, and each index of the new shape has the element of one index of the old
/// one.
#[tactic(auto, unfolding(crate::specs::ArrayMeaning::meaning_of))]
pub fn first_axes_joined<S: Data, D: Dimension>(array: &ArrayBase<S, D>)
    ensures shape { (n m : ℕ) (ms : _) → shape_of array.now ≡ n ∷ m ∷ ms → IsShapeOf (shape_of array.now) (n * m ∷ ms) }
    ensures short { (n m : ℕ) (ms : List ℕ) → shape_of array.now ≡ n ∷ m ∷ ms → n * m < 2 ^ 63 }
    ensures elements { JoinsFirstAxes (meaning_of array.now) }
{}

/// Two arrays with two axes are equal (`==`) exactly where they have the same shape and, at each row and column, the
/// same element. That holds if elements are equal exactly where they are the same, as numbers are.
pub fn equal_cells<S: Data, D: Dimension>(one: &ArrayBase<S, D>, other: &ArrayBase<S, D>)
where
    S::Elem: PartialEq,
    requires { EqualIsSame S.Elem.eq }
    ensures { EqualByCells S.Elem.eq (meaning_of one.now) (meaning_of other.now) }
{}

/// If the rows of a table are listed one after another, the list has as many elements as the table, its length is below
/// 2^63, and the element at a row and a column stands at the number row times columns plus column.
pub fn rows_joined<S: Data, D: Dimension>(array: &ArrayBase<S, D>)
    ensures shape { (n m : ℕ) → shape_of array.now ≡ n ∷ m ∷ [] → IsShapeOf (shape_of array.now) (n * m ∷ []) }
    ensures short { (n m : ℕ) → shape_of array.now ≡ n ∷ m ∷ [] → n * m < 2 ^ 63 }
    ensures elements { JoinsRows (meaning_of array.now) }
{}

//! The calls that a script makes on its array, as values.

ghost use Rattle.std.specs.Prelude.{◌≡◌};
ghost use Rattle.nd_array_core.specs.ArrayMeaning.{Meaning, meaning_of};

use nd_array_core::Array;
use nd_shape_and_slice::{IxDyn, Order, Slice, SliceInfoElem};

/// A value that holds an owned array: the array itself, or a box of it, which keeps a long list of calls small.
pub trait HoldsArray<A> {
    ghost held: { Self → Meaning A };

    /// Returns the array that is held.
    fn array(&self) -> &Array<A, IxDyn>
        ensures { meaning_of result.now ≡ held self.now };
}

impl<A> HoldsArray<A> for Array<A, IxDyn> {
    ghost held = { λ array. meaning_of array };

    fn array(&self) -> &Array<A, IxDyn> {
        self
    }
}

impl<A> HoldsArray<A> for Box<Array<A, IxDyn>> {
    ghost held = { λ boxed. meaning_of boxed.value };

    fn array(&self) -> &Array<A, IxDyn> {
        self
    }
}

/// A layout call. Its result is an array or view of the same elements.
#[derive(Debug, Drop)]
pub enum Step {
    /// The axis, and the slice of it that is kept.
    SliceAxis(usize, Slice),
    /// The list of slices, indexes and new axes by which the array is sliced.
    Slice(Vec<SliceInfoElem>),
    /// The axis, and the coordinate that is kept of it. The axis then has length 1.
    Collapse(usize, usize),
    /// The axis, and the coordinate that is kept of it. The axis is then removed.
    IndexAxis(usize, usize),
    /// The numbers of the axes in their new order.
    Permute(Vec<usize>),
    /// The step puts the axes in the opposite order.
    Reverse,
    /// The two axes that are exchanged.
    SwapAxes(usize, usize),
    /// The axis whose coordinates are counted from the other end.
    Invert(usize),
    /// The position at which an axis of length 1 is inserted.
    InsertAxis(usize),
    /// The axis that is removed, of which coordinate 0 is kept.
    RemoveAxis(usize),
    /// The step removes all axes of length 1, except that one stays if there is no other axis.
    Squeeze,
    /// The step keeps the elements whose coordinates are all the same, along one axis.
    Diag,
    /// The larger shape to which the array is broadcast. The array can't be replaced by the result of such a step,
    /// because its elements would be shared.
    Broadcast(Vec<usize>),
}

/// A question about an array. Users write `Question<A>`, whose arrays are held as they are and not in boxes.
#[derive(Drop)]
pub enum Question<A, T = Array<A, IxDyn>> {
    /// The question asks for the lengths.
    Shape,
    /// The question asks for the lengths and the elements in row-major order.
    Elements,
    /// The index whose element is asked for.
    Get(Vec<usize>),
    /// The question asks for the first element in row-major order.
    First,
    /// The question asks for the last element in row-major order.
    Last,
    /// The array with which the questioned array is compared: whether the lengths are the same and the elements are
    /// equal.
    EqualTo(T),
    /// The element for which it is counted how many elements equal it.
    Count(A),
    /// The lengths under which the elements are asked for, and the order in which each element keeps its rank.
    ToShape(Vec<usize>, Order),
}

/// A change of an array's elements. Users write `Act<A>`, whose arrays are held as they are and not in boxes.
#[derive(Drop)]
pub enum Act<A, T = Array<A, IxDyn>> {
    /// The element of which a clone is written at each index.
    Fill(A),
    /// The array whose elements are cloned to the same indexes. It is broadcast to the lengths of the array that is
    /// changed.
    Assign(T),
    /// The index that is written, and the element of which a clone is written there.
    Set(Vec<usize>, A),
    /// The two indexes whose elements are exchanged.
    Swap(Vec<usize>, Vec<usize>),
}

/// A call, which is one line of a script. Users write `Call<A>`, whose arrays are held as they are and not in boxes.
#[derive(Drop)]
pub enum Call<A, T = Array<A, IxDyn>> {
    /// The step whose result replaces the array.
    Keep(Step),
    /// The steps that lead to a view, and the question about that view. The array stays as it is.
    Ask(Vec<Step>, Question<A, T>),
    /// The steps that lead to a view, and the act that changes the array's elements through that view.
    Write(Vec<Step>, Act<A, T>),
    /// The axis and the coordinate at which the array is split, the act on the part below the coordinate, and the act
    /// on the other part.
    SplitWrite(usize, usize, Act<A, T>, Act<A, T>),
    /// The axis, and its coordinates that are kept, in their new order.
    Select(usize, Vec<usize>),
    /// The axis, and its coordinate that is removed.
    RemoveIndex(usize, usize),
    /// The lengths that the array gets, and the order in which each element keeps its rank.
    Reshape(Vec<usize>, Order),
    /// The axis along which an array is appended, and that array. Its elements are cloned.
    Append(usize, T),
    /// The axis along which an array is appended as one more coordinate, and that array, which has one axis fewer. Its
    /// elements are cloned.
    Push(usize, T),
    /// The axis, and the number of its coordinates for which capacity is reserved in addition.
    Reserve(usize, usize),
    /// The axis along which arrays are appended one after another, and these arrays. None is broadcast.
    Concatenate(usize, Vec<T>),
    /// The position of the new axis, and the arrays of the same lengths that are stacked with the array along it.
    Stack(usize, Vec<T>),
}

//! Shapes with an order or with strides, which constructors take.

ghost use Rattle.std.specs.Prelude.{◌≡◌, ◌≤◌, ℕ, ℤ, Bool, List, length, Option, None, Some, if◌then◌else◌, IsTrue};
ghost use Rattle.std.specs.Option.{option_map};
ghost use Rattle.nd_shape_and_slice.specs.ShapesAndIndexOrders.{HasCheckedSize, size_of};
ghost use Rattle.nd_shape_and_slice.specs.ShapeBuilder.{are_as_many};
ghost use Rattle.nd_shape_and_slice.specs.declared.shape_builder.Order.{Order};
ghost use Rattle.nd_shape_and_slice.specs.declared.shape_builder.Order.TheVariants.{RowMajor, ColumnMajor};

use crate::dimension::{Dimension, StrideList};
use crate::index_and_shape_conversions::IntoDimension;
use crate::strides::strides_from;

/// An order of elements, which says which axis varies fastest. This is ndarray's `Order`.
#[derive(Clone, Copy, Debug, PartialEq, Eq)]
pub enum Order {
    /// The last axis varies fastest, as in C.
    RowMajor,
    /// The first axis varies fastest, as in Fortran.
    ColumnMajor,
}

/// A shape for a reshape: lengths, or a pair of lengths and an order. Without an order it is row-major. This is
/// ndarray's `ShapeArg`.
pub trait ShapeArg {
    /// The dimension type of the shape.
    type Dim: Dimension;

    ghost shape_asked: { Self → List ℕ };

    ghost order_asked: { Self → Order };

    /// Returns the shape and the order. This is ndarray's `ShapeArg::into_shape_and_order`.
    fn into_shape_and_order(self) -> (Self::Dim, Order)
        ensures lengths { Self.Dim.lengths result.0 ≡ shape_asked self }
        ensures order { result.1 ≡ order_asked self };
}

impl<S: IntoDimension> ShapeArg for S {
    type Dim = S::Dim;

    ghost shape_asked = { λ s. S.lengths_given s };

    ghost order_asked = { λ _. RowMajor };

    fn into_shape_and_order(self) -> (S::Dim, Order) {
        (self.into_dimension(), Order::RowMajor)
    }
}

impl<S: IntoDimension> ShapeArg for (S, Order) {
    type Dim = S::Dim;

    ghost shape_asked = { λ s. S.lengths_given s.0 };

    ghost order_asked = { λ s. s.1 };

    fn into_shape_and_order(self) -> (S::Dim, Order) {
        let (shape, order) = self;
        (shape.into_dimension(), order)
    }
}

/// A shape and the order that its strides are to have. This is ndarray's `Shape`.
#[derive(Drop)]
pub struct Shape<D: Dimension> {
    dim: D,
    order: Order,
}

impl<D: Dimension> Shape<D> {
    /// Returns the dimension. This is ndarray's `Shape::raw_dim`.
    pub fn raw_dim(&self) -> &D
        ensures { result.now ≡ self.now.dim }
    {
        &self.dim
    }

    /// Returns the order of the strides.
    pub fn order(&self) -> Order
        ensures { result ≡ self.now.order }
    {
        self.order
    }

    /// Returns the number of elements. The product of the lengths other than 0 must be at most `isize::MAX`. This is
    /// ndarray's `Shape::size`.
    pub fn size(&self) -> usize
        requires { HasCheckedSize (D.lengths self.now.dim) }
        ensures { result ≡ size_of (D.lengths self.now.dim) }
    {
        self.dim.size()
    }
}

/// A shape and the strides that it is to have: those of row-major or column-major order, or strides that the caller
/// gives. This is ndarray's `StrideShape`.
#[derive(Drop)]
pub struct StrideShape<D: Dimension> {
    dim: D,
    order: Order,
    custom: Option<D::Strides>,
    ghost as_many: { IsTrue (are_as_many (option_map D.Strides.strides_of custom) (length (D.lengths dim))) },
}

impl<D: Dimension> StrideShape<D> {
    /// Returns the dimension. This is ndarray's `StrideShape::raw_dim`.
    pub fn raw_dim(&self) -> &D
        ensures { result.now ≡ self.now.dim }
    {
        &self.dim
    }

    /// Returns the order of the strides, which counts if the caller has given no strides.
    pub fn order(&self) -> Order
        ensures { result ≡ self.now.order }
    {
        self.order
    }

    /// Returns the strides that the caller has given, one for each axis, or `None` if there are none.
    pub fn custom_strides(&self) -> Option<D::Strides>
        ensures strides { result ≡ self.now.custom }
        ensures as_many { IsTrue (are_as_many (option_map D.Strides.strides_of result) (length (D.lengths self.now.dim))) }
    {
        self.custom
    }

    /// Returns the number of elements. The product of the lengths other than 0 must be at most `isize::MAX`. This is
    /// ndarray's `StrideShape::size`.
    pub fn size(&self) -> usize
        requires { HasCheckedSize (D.lengths self.now.dim) }
        ensures { result ≡ size_of (D.lengths self.now.dim) }
    {
        self.dim.size()
    }
}

/// A value from which a shape is built: lengths, or a shape with an order. This is ndarray's `ShapeBuilder`.
pub trait ShapeBuilder {
    /// The dimension type of the shape.
    type Dim: Dimension;

    ghost builds_lengths: { Self → List ℕ };

    ghost builds_order: { Self → Order };

    /// Returns the shape with its order, which is row-major if none was asked for. This is ndarray's
    /// `into_shape_with_order`.
    fn into_shape_with_order(self) -> Shape<Self::Dim>
        ensures lengths { Self.Dim.lengths result.dim ≡ builds_lengths self }
        ensures order { result.order ≡ builds_order self };

    /// Returns the shape in column-major order if `is_f` is true, and otherwise in row-major order. This is ndarray's
    /// `ShapeBuilder::set_f`.
    fn set_f(self, is_f: bool) -> Shape<Self::Dim>
        ensures lengths { Self.Dim.lengths result.dim ≡ builds_lengths self }
        ensures order { result.order ≡ (if is_f then Order.ColumnMajor else Order.RowMajor) };

    /// Returns the shape in column-major order. This is ndarray's `ShapeBuilder::f`.
    fn f(self) -> Shape<Self::Dim>
        ensures lengths { Self.Dim.lengths result.dim ≡ builds_lengths self }
        ensures order { result.order ≡ Order.ColumnMajor };

    /// Returns the shape with `strides`, which must be as many as there are axes. This is ndarray's
    /// `ShapeBuilder::strides`.
    fn strides(self, strides: &[isize]) -> StrideShape<Self::Dim>
        requires { length strides.now ≡ length (builds_lengths self) }
        ensures lengths { Self.Dim.lengths result.dim ≡ builds_lengths self }
        ensures order { result.order ≡ builds_order self }
        ensures strides { option_map Self.Dim.Strides.strides_of result.custom ≡ Some strides.now };
}

/// Returns the shape with the strides `list`.
fn with_strides<D: Dimension>(shape: Shape<D>, list: &[isize]) -> StrideShape<D>
    requires { length list.now ≡ length (D.lengths shape.dim) }
    ensures lengths { D.lengths result.dim ≡ D.lengths shape.dim }
    ensures order { result.order ≡ shape.order }
    ensures strides { option_map D.Strides.strides_of result.custom ≡ Some list.now }
{
    let strides = strides_from(&shape.dim, list);
    StrideShape {
        dim: shape.dim,
        order: shape.order,
        custom: Some(strides),
    }
}

/// Returns column-major order if `is_f` is true, and otherwise row-major order.
fn order_of(is_f: bool) -> Order
    ensures { result ≡ (if is_f then Order.ColumnMajor else Order.RowMajor) }
{
    if is_f {
        Order::ColumnMajor
    } else {
        Order::RowMajor
    }
}

impl<S: IntoDimension> ShapeBuilder for S {
    type Dim = S::Dim;

    ghost builds_lengths = { λ s. S.lengths_given s };

    ghost builds_order = { λ _. RowMajor };

    fn into_shape_with_order(self) -> Shape<S::Dim> {
        Shape {
            dim: self.into_dimension(),
            order: Order::RowMajor,
        }
    }

    fn set_f(self, is_f: bool) -> Shape<S::Dim> {
        Shape {
            dim: self.into_dimension(),
            order: order_of(is_f),
        }
    }

    fn f(self) -> Shape<S::Dim> {
        self.set_f(true)
    }

    fn strides(self, strides: &[isize]) -> StrideShape<S::Dim> {
        with_strides(self.into_shape_with_order(), strides)
    }
}

impl<D: Dimension> ShapeBuilder for Shape<D> {
    type Dim = D;

    ghost builds_lengths = { λ s. D.lengths s.dim };

    ghost builds_order = { λ s. s.order };

    fn into_shape_with_order(self) -> Shape<D> {
        self
    }

    fn set_f(self, is_f: bool) -> Shape<D> {
        Shape {
            dim: self.dim,
            order: order_of(is_f),
        }
    }

    fn f(self) -> Shape<D> {
        self.set_f(true)
    }

    fn strides(self, strides: &[isize]) -> StrideShape<D> {
        with_strides(self, strides)
    }
}

/// A value that a constructor takes as its shape and strides: anything that builds a shape, or a `StrideShape`. This
/// trait stands for ndarray's `Into<StrideShape>`.
pub trait IntoStrideShape {
    /// The dimension type of the shape.
    type Dim: Dimension;

    ghost lengths_meant: { Self → List ℕ };

    ghost order_meant: { Self → Order };

    ghost strides_meant: { Self → Option (List ℤ) };

    /// Returns the shape with its strides.
    fn into_stride_shape(self) -> StrideShape<Self::Dim>
        ensures lengths { Self.Dim.lengths result.dim ≡ lengths_meant self }
        ensures order { result.order ≡ order_meant self }
        ensures strides { option_map Self.Dim.Strides.strides_of result.custom ≡ strides_meant self };
}

impl<B: ShapeBuilder> IntoStrideShape for B {
    type Dim = B::Dim;

    ghost lengths_meant = { λ b. B.builds_lengths b };

    ghost order_meant = { λ b. B.builds_order b };

    ghost strides_meant = { λ _. None };

    fn into_stride_shape(self) -> StrideShape<B::Dim> {
        let shape = self.into_shape_with_order();
        StrideShape {
            dim: shape.dim,
            order: shape.order,
            custom: None,
        }
    }
}

impl<D: Dimension> IntoStrideShape for StrideShape<D> {
    type Dim = D;

    ghost lengths_meant = { λ s. D.lengths s.dim };

    ghost order_meant = { λ s. s.order };

    ghost strides_meant = { λ s. option_map D.Strides.strides_of s.custom };

    fn into_stride_shape(self) -> StrideShape<D> {
        self
    }
}

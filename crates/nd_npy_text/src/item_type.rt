//! The types of elements.

ghost use Rattle.std.specs.Prelude.{◌≡◌, ◌<◌, ◌≤◌};
ghost use Rattle.nd_npy_text.specs.ItemTypes.{kind_size, kind_code, order_mark, has_its_order};

/// What kind of number an element is.
#[derive(Clone, Copy, Debug, PartialEq, Eq)]
pub enum Kind {
    Bool,
    Int8,
    Int16,
    Int32,
    Int64,
    UInt8,
    UInt16,
    UInt32,
    UInt64,
    Float16,
    Float32,
    Float64,
    /// Two floats of four bytes: the real part and the imaginary part.
    Complex64,
    /// Two floats of eight bytes: the real part and the imaginary part.
    Complex128,
}

impl Kind {
    /// Returns how many bytes an element takes.
    pub fn size(self) -> usize
        ensures value { result ≡ kind_size self }
        ensures some { 0 < result }
        ensures few { result ≤ 16 }
    {
        match self {
            Kind::Bool => 1,
            Kind::Int8 => 1,
            Kind::Int16 => 2,
            Kind::Int32 => 4,
            Kind::Int64 => 8,
            Kind::UInt8 => 1,
            Kind::UInt16 => 2,
            Kind::UInt32 => 4,
            Kind::UInt64 => 8,
            Kind::Float16 => 2,
            Kind::Float32 => 4,
            Kind::Float64 => 8,
            Kind::Complex64 => 8,
            Kind::Complex128 => 16,
        }
    }

    /// Returns how numpy writes the kind, after the byte order: a letter and how many bytes an element takes.
    pub fn code(self) -> &'static [u8]
        ensures { result.now ≡ kind_code self }
    {
        match self {
            Kind::Bool => b"b1",
            Kind::Int8 => b"i1",
            Kind::Int16 => b"i2",
            Kind::Int32 => b"i4",
            Kind::Int64 => b"i8",
            Kind::UInt8 => b"u1",
            Kind::UInt16 => b"u2",
            Kind::UInt32 => b"u4",
            Kind::UInt64 => b"u8",
            Kind::Float16 => b"f2",
            Kind::Float32 => b"f4",
            Kind::Float64 => b"f8",
            Kind::Complex64 => b"c8",
            Kind::Complex128 => b"c16",
        }
    }
}

/// In which order the bytes of a number lie.
#[derive(Clone, Copy, Debug, PartialEq, Eq)]
pub enum ByteOrder {
    /// The least significant byte first.
    Little,
    /// The most significant byte first.
    Big,
    /// Numbers of one byte have no byte order.
    NotApplicable,
}

impl ByteOrder {
    /// Returns how numpy writes the byte order: as `<`, `>` or `|`.
    pub fn mark(self) -> u8
        ensures { result ≡ order_mark self }
    {
        match self {
            ByteOrder::Little => b'<',
            ByteOrder::Big => b'>',
            ByteOrder::NotApplicable => b'|',
        }
    }
}

/// The type of the elements: a kind of number and a byte order.
#[derive(Clone, Copy, Debug, PartialEq, Eq)]
pub struct ItemType {
    /// The kind of number that an element is.
    pub kind: Kind,
    /// In which order the bytes of a number lie; it holds for each of the two parts of a complex number.
    pub order: ByteOrder,
}

impl ItemType {
    /// Returns how many bytes an element takes.
    pub fn size(self) -> usize
        ensures value { result ≡ kind_size self.kind }
        ensures some { 0 < result }
        ensures few { result ≤ 16 }
    {
        self.kind.size()
    }

    /// Returns whether the byte order is one that the kind can have: `NotApplicable` if an element takes one byte, and
    /// `Little` or `Big` if it takes more.
    pub fn has_its_order(self) -> bool
        ensures { result ≡ has_its_order self }
    {
        (self.order == ByteOrder::NotApplicable) == (self.kind.size() == 1)
    }
}

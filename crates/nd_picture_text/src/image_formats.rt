//! An image as it stands in a file, and the format of the file.

ghost use Rattle.std.specs.Prelude.{◌≡◌};
ghost use Rattle.nd_picture_text.specs.ImageFormatsAndHeaders.{channels_of, is_plain, is_bitmap, is_packed, gray_kind, plain_kind, raw_kind};

/// The format of an image.
#[derive(Clone, Copy, Debug, PartialEq, Eq)]
pub enum Kind {
    /// P1: a bitmap, an image in black and white alone, in digits.
    PlainBitmap,
    /// P2: a grey image in decimal numbers.
    PlainGrey,
    /// P3: a coloured image in decimal numbers.
    PlainColour,
    /// P4: a bitmap with eight pixels in a byte. Each row begins with a new byte.
    RawBitmap,
    /// P5: a grey image in bytes.
    RawGrey,
    /// P6: a coloured image in bytes.
    RawColour,
}

impl Kind {
    /// Returns the number of samples of a pixel: 3 (red, green and blue) in a coloured image, and 1 in any other.
    pub fn channels(self) -> usize
        ensures { result ≡ channels_of self }
    {
        match self {
            Kind::PlainBitmap => 1,
            Kind::PlainGrey => 1,
            Kind::PlainColour => 3,
            Kind::RawBitmap => 1,
            Kind::RawGrey => 1,
            Kind::RawColour => 3,
        }
    }

    /// Returns whether the samples are written in digits.
    pub fn is_plain(self) -> bool
        ensures { result ≡ is_plain self }
    {
        match self {
            Kind::PlainBitmap => true,
            Kind::PlainGrey => true,
            Kind::PlainColour => true,
            Kind::RawBitmap => false,
            Kind::RawGrey => false,
            Kind::RawColour => false,
        }
    }

    /// Returns whether the samples are 0 for black and 1 for white alone, so that a file tells no maxval.
    pub fn is_bitmap(self) -> bool
        ensures { result ≡ is_bitmap self }
    {
        matches!(self, Kind::PlainBitmap | Kind::RawBitmap)
    }

    /// Returns whether a byte of a file is eight samples.
    pub fn is_packed(self) -> bool
        ensures { result ≡ is_packed self }
    {
        matches!(self, Kind::RawBitmap)
    }

    /// Returns the format without colours whose samples are written in the same way.
    pub fn gray(self) -> Kind
        ensures { result ≡ gray_kind self }
    {
        match self {
            Kind::PlainColour => Kind::PlainGrey,
            Kind::RawColour => Kind::RawGrey,
            _ => self,
        }
    }

    /// Returns the format in which the same samples are written in digits.
    pub fn plain(self) -> Kind
        ensures { result ≡ plain_kind self }
    {
        match self {
            Kind::RawBitmap => Kind::PlainBitmap,
            Kind::RawGrey => Kind::PlainGrey,
            Kind::RawColour => Kind::PlainColour,
            _ => self,
        }
    }

    /// Returns the format in which the same samples are written in bytes.
    pub fn raw(self) -> Kind
        ensures { result ≡ raw_kind self }
    {
        match self {
            Kind::PlainBitmap => Kind::RawBitmap,
            Kind::PlainGrey => Kind::RawGrey,
            Kind::PlainColour => Kind::RawColour,
            _ => self,
        }
    }
}

/// The header of an image, which stands in front of its samples.
#[derive(Clone, Copy, Debug, PartialEq, Eq)]
pub struct Header {
    /// The format of the image.
    pub kind: Kind,
    /// The number of columns of pixels.
    pub width: usize,
    /// The number of rows of pixels.
    pub height: usize,
    /// The greatest value that a sample can have, which Netpbm calls maxval. It is 1 in a bitmap.
    pub maxval: u16,
}

/// An image: its header, and its samples row by row, pixel by pixel, channel by channel.
#[derive(Drop)]
pub struct Image {
    /// The header of the image.
    pub header: Header,
    /// The samples.
    pub samples: Vec<u16>,
}

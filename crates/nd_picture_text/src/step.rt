//! The steps that change a picture, and how each is written.

/// A step, which changes a picture.
#[derive(Clone, Copy, Debug, PartialEq, Eq)]
pub enum Step {
    /// `crop T L H W`: keeps the part of H rows from row T on and W columns from column L on.
    Crop {
        /// The first row of the part.
        top: usize,
        /// The first column of the part.
        left: usize,
        /// The number of rows of the part.
        height: usize,
        /// The number of columns of the part.
        width: usize,
    },
    /// `flip`: reverses the order of the rows.
    Flip,
    /// `flop`: reverses the order of the columns.
    Flop,
    /// `rotate 90`: turns the picture clockwise by a quarter.
    RotateQuarter,
    /// `rotate 180`: turns the picture half round.
    RotateHalf,
    /// `rotate 270`: turns the picture clockwise by three quarters.
    RotateBack,
    /// `transpose`: makes the rows the columns.
    Transpose,
    /// `scale-down K`: keeps every K-th row and column, from the first on.
    ScaleDown(usize),
    /// `threshold N`: sets each sample above N to the maxval, and every other sample to 0.
    Threshold(usize),
    /// `invert`: replaces each sample by the maxval minus the sample.
    Invert,
    /// `blur`: replaces each sample by the mean of the nine samples around it.
    Blur,
    /// `gray`: replaces the three samples of a coloured pixel by its lightness. Other images stay as they are.
    Gray,
    /// `border N V`: puts N rows and columns of samples V around the picture.
    Border {
        /// The number of rows above and below the picture, and of columns to the left and to the right of it.
        width: usize,
        /// The value of their samples.
        value: usize,
    },
    /// `shrink K`: replaces each block of K rows and K columns by the mean of its samples.
    Shrink(usize),
    /// `plain`: writes the samples in digits.
    Plain,
    /// `raw`: writes the samples in bytes.
    Raw,
}

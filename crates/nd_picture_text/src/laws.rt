//! Laws of images. Nothing here runs: each law is the contract of a function.

ghost use Rattle.nd_picture_text.specs.ImageReadingLaws.{ImagesReadBack, BadBytesStayBad, GoodBytesGoOn};

/// States that an image that is written is read back as the same image, whatever follows it.
#[tactic(auto, using(crate::proofs::ImagesReadBack::read_back))]
pub fn images_read_back()
    ensures { ImagesReadBack }
{}

/// States that the byte that an error of reading tells is the first at which no image can go on: the bytes before it
/// begin an image, and no image begins with these bytes and that byte.
#[tactic(auto, using(crate::proofs::ReadingByteByByte::good_bytes_go_on, crate::proofs::ReadingByteByByte::bad_bytes_stay))]
pub fn bad_bytes_come_first()
    ensures before { GoodBytesGoOn }
    ensures from_there { BadBytesStayBad }
{}

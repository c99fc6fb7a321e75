//! Laws of every image.
ghost use Rattle.section_dump.specs.Laws.{CutHeadersAreBad, CutImagesAreShort, FaultsAreOfNoImage, FaultsAreOne, ListingsAreOne};

/// Law: bytes with a fault are no image, and have no other fault.
pub fn faults_are_exact()
    ensures no_image { FaultsAreOfNoImage }
    ensures one { FaultsAreOne }
{}

/// Law: an image has one listing.
pub fn listings_are_one()
    ensures { ListingsAreOne }
{}

/// Law: an image that is cut at any byte is refused by its header, or as too short with both
/// lengths.
// claim header, short: An image that is cut anywhere is refused: below 32 bytes by its header,
//    otherwise as too short, with the image's length and the bytes found.
pub fn cut_images_are_short()
    ensures header { CutHeadersAreBad }
    ensures short { CutImagesAreShort }
{}

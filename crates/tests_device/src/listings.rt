//! Each law of listings may be called: it has no condition for its caller. Listings of images are
//! worked rows.
use section_dump::{cut_images_are_short, faults_are_exact, listings_are_one};

#[test]
fn laws_of_listings() {
    cut_images_are_short();
    faults_are_exact();
    listings_are_one();
}

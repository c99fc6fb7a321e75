//! Laws of the map, for all sizes.
ghost use Rattle.std.specs.Prelude.{◌<◌};
ghost use Rattle.section_map.specs.Geometry.{Shape};
ghost use Rattle.section_map.specs.Laws.{SectionsAreApart, TableIsReadOnly, WritesStayInside, OnlyCommonIsShared, WordHasOneSection, TestDecidesWrites};

/// Law: two different peers' output sections share no word. A word that two peers may write is in
/// the common section. No peer may write the State Table or a word past the region. Each word is in
/// one section alone.
// claim apart, shared, table, inside: The sections of two peers share no word. No peer may write
//    the State Table or a word past the region.
pub fn sections_are_apart()
    ensures apart { (g : Shape) → SectionsAreApart g }
    ensures table { (g : Shape) → TableIsReadOnly g }
    ensures inside { (g : Shape) → WritesStayInside g }
    ensures shared { (g : Shape) → OnlyCommonIsShared g }
    ensures one { (g : Shape) → WordHasOneSection g }
{}

/// Law: the test that definitions use is true exactly at the words that a peer may write.
// claim: The test by which histories deny a write is the definition of the words that a peer may
//    write.
pub fn test_decides_writes()
    ensures { TestDecidesWrites }
{}

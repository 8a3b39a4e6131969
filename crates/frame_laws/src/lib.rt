//! Laws of what decoders show: what joins the frames of a composed CIF picture to those of the QCIF pictures that it is made
//! of. Each function does nothing; its contract is the law, whose words stand in `specs/`.
#![tactic(auto)]

ghost use Rattle.frame_laws.specs.Composing.{ComposedShows, ComposedIsValid, ComposedLength, ComposedIsLegal};
ghost use Rattle.frame_laws.specs.DecodedFrames.{QuadrantLaw, ValidStaysInside, RefreshLaw, BlankLaw, UnchangedLaw};

/// Decoding a CIF picture and looking at one of its places is looking at the place and decoding the QCIF picture that
/// stands in it: for every transform, every frame before, and every CIF picture whose groups in the place are those of a
/// QCIF picture whose vectors stay inside, as those of a valid picture do.
pub fn quadrant()
    ensures law { QuadrantLaw }
    ensures valid { ValidStaysInside }
{}

/// Decoding a valid refresh gives the same frame from every frame before.
pub fn refresh()
    ensures { RefreshLaw }
{}

/// A picture that sends nothing leaves a frame as it is, and a place whose groups send nothing shows what it showed.
pub fn blank()
    ensures frame { BlankLaw }
    ensures place { UnchangedLaw }
{}

/// The CIF picture that is composed of up to four valid QCIF pictures is valid, and its text is legal and has at most
/// 262,048 bits where theirs are within their limit. After it each place shows what its own picture makes of what the place
/// showed, and what it showed where it gets none.
pub fn composed()
    ensures shows { ComposedShows }
    ensures valid { ComposedIsValid }
    ensures length { ComposedLength }
    ensures legal { ComposedIsLegal }
{}

//! Laws of coded pictures. Each function does nothing; its contract is the law.

ghost use Rattle.h261_pic.specs.Laws.{EqualCodings, FinishedCodings, CutTexts};

/// Equal codings of valid pictures are of equal pictures, and the coding of a valid picture is finished. In the coding of a
/// picture the views cut the text behind the headers, and the marks cut each view: what stands at a mark is what its
/// macroblock is sent as.
pub fn codings_of_pictures()
    ensures equal { EqualCodings }
    ensures finished { FinishedCodings }
    ensures cut { CutTexts }
{}

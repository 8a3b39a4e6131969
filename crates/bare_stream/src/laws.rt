//! Laws of bare streams: functions that do nothing, whose contracts are the laws.
ghost use Rattle.bare_stream.specs.SoFar.{LawOfStreamBegun, LawOfPictureGiven, LawOfStreamEnded};
ghost use Rattle.bare_stream.specs.Streams.{LawOfBareReadBack, LawOfOneBareStream};

use picture_laws::one_record_or_one_fault;

/// Bits are one stream of pictures at most, with one end.
pub fn one_bare_stream()
    ensures { LawOfOneBareStream }
{
    one_record_or_one_fault();
}

/// A reader that is called one time after the other gives the pictures of the stream in their order, and says how it ends.
pub fn pictures_one_by_one()
    ensures begun { LawOfStreamBegun }
    ensures given { LawOfPictureGiven }
    ensures ended { LawOfStreamEnded }
{}

/// The stream of valid pictures within the limit of their format is read as these pictures.
pub fn bare_stream_is_read_back()
    ensures { LawOfBareReadBack }
{}

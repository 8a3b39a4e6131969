//! Laws of coded pictures: what joins their records and texts to their elements, read from left to right. Each
//! function does nothing; its contract is the law, whose words stand in `specs/`.
#![tactic(auto)]

ghost use Rattle.picture_laws.specs.Laws.{TextIsAccepted, AcceptedIsRead, WalkHasRecord, HasRecordOrFault, NeverBoth, OneSpelling, OneRecord, OneFault, GoodOverFirst, GoodOverAll, JudgedByTheLimit, WithoutTheLimit, WithinTheLimit, PastTheLimit, KeptLength};
ghost use Rattle.picture_laws.specs.MacroblockLengths.{MacroblocksAreShort, GroupsAreShort};
ghost use Rattle.picture_laws.specs.SoFar.{InsideStands, GroupBegins, StuffingJoins, MacroblockJoins, HeaderBegins, GroupIsLeftOut, GroupIsSent, PictureIsTold, PictureIsAccepted};
ghost use Rattle.picture_laws.specs.TextLaws.{TextsHaveLengths, ValidInEachPlace, MarksCutGroups, MarksCutPictures, OnePicture, StrictIsOwn, ReadInItsForm, WalkHasForm, StrictIsRead};

/// The strict text of a valid picture within the limit is accepted with that picture.
pub fn text_is_accepted()
    ensures { TextIsAccepted }
{}

/// Accepted bits are good elements up to the lawful end, and these tell the picture.
pub fn accepted_text_is_read()
    ensures { AcceptedIsRead }
{}

/// Good elements up to the lawful end tell a picture, and the bits are accepted with it.
pub fn walk_has_a_record()
    ensures { WalkHasRecord }
{}

/// Bits are accepted with one picture or have one first fault, never both.
pub fn one_record_or_one_fault()
    ensures either { HasRecordOrFault }
    ensures never_both { NeverBoth }
    ensures one_spelling { OneSpelling }
    ensures one_record { OneRecord }
    ensures one_fault { OneFault }
{}

/// What is read over the first bits alone, and the limit of a picture where a macroblock's elements go past it: the
/// element that is too long is the one that is cut in a reading of the bits that the limit leaves.
pub fn limit_is_read_by_a_cut()
    ensures over_first { GoodOverFirst }
    ensures over_all { GoodOverAll }
    ensures judged { JudgedByTheLimit }
    ensures without { WithoutTheLimit }
    ensures within { WithinTheLimit }
    ensures past { PastTheLimit }
{}

/// Bits behind the first 65,600 of a QCIF picture, or 262,208 of a CIF picture, change neither the picture with which
/// bits are accepted nor the first fault.
pub fn kept_length()
    ensures { KeptLength }
{}

/// A group as far as it was read: its header, then stuffing and macroblocks one by one, each with its text.
pub fn group_so_far()
    ensures begins { GroupBegins }
    ensures stuffing { StuffingJoins }
    ensures macroblock { MacroblockJoins }
    ensures inside { InsideStands }
{}

/// A picture as far as it was read: its header, then groups that are left out or were read; when it has all its groups
/// and the bits end lawfully, they are accepted with it.
pub fn picture_so_far()
    ensures begins { HeaderBegins }
    ensures left_out { GroupIsLeftOut }
    ensures sent { GroupIsSent }
    ensures told { PictureIsTold }
    ensures accepted { PictureIsAccepted }
{}

/// The lengths of headers, and of the texts of groups and pictures.
pub fn text_lengths()
    ensures { TextsHaveLengths }
{}

/// A valid group of a QCIF picture is a valid group of a CIF picture, with its number in each of the four places.
pub fn groups_in_places()
    ensures { ValidInEachPlace }
{}

/// The bits at the marks of macroblocks are the texts of these, in order and with no bit shared: where the text of a
/// group's macroblocks stands anywhere, and in the text of a picture.
pub fn marks_cut_the_text()
    ensures of_a_group { MarksCutGroups }
    ensures of_a_picture { MarksCutPictures }
{}

/// A strict text is that of one valid picture, and is accepted with no other.
pub fn one_picture_for_a_text()
    ensures text { OnePicture }
    ensures accepted { StrictIsOwn }
{}

/// Bits that are accepted in an input form are read as the elements of that form; elements that are read up to the lawful
/// end are those of a form in which the bits are accepted; and those of a strict text have no spare octets and no stuffing.
pub fn read_in_a_form()
    ensures accepted { ReadInItsForm }
    ensures walk { WalkHasForm }
    ensures strict { StrictIsRead }
{}

/// The text of a valid macroblock has at least 1 bit and at most 7,749, and a valid group has at most 33 macroblocks.
pub fn lengths_of_macroblocks()
    ensures macroblocks { MacroblocksAreShort }
    ensures groups { GroupsAreShort }
{}

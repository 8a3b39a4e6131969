//! Laws of the packets of pictures: functions without a body, whose contracts are the laws.

ghost use Rattle.cif_pack.specs.Laws.{CutsAreFurthest, CutsAreOne, PacketsFit, MarkerOnTheLast, ExcludedBitsAreZeros, PacketsGoOn, NumbersGoOn, NothingSent, OneMoreIsSent, TotalsAreSmall};

/// Each packet of a valid picture ends at the furthest end of an atom that fits, and the last one at the end of the text;
/// no other cuts are like that.
pub fn cuts_are_the_furthest()
    ensures furthest { CutsAreFurthest }
    ensures only { CutsAreOne }
{}

/// No packet of a valid picture has more octets than the settings say.
pub fn packets_fit()
    ensures { PacketsFit }
{}

/// A valid picture has a packet at least, and the marker bit is 1 in the last one alone.
pub fn marker_on_the_last()
    ensures { MarkerOnTheLast }
{}

/// A payload's bits are its header's and those of the text, with zeros in place of the bits that SBIT and EBIT exclude.
pub fn excluded_bits_are_zeros()
    ensures { ExcludedBitsAreZeros }
{}

/// The packets of pictures are those of one after the other, and a packer that wrote some goes on after them.
pub fn packets_go_on()
    ensures joined { PacketsGoOn }
    ensures numbers { NumbersGoOn }
{}

/// A packer that is called picture by picture writes the packets of all of them, or a front of those where its sink fails.
pub fn pictures_one_by_one()
    ensures nothing { NothingSent }
    ensures one_more { OneMoreIsSent }
{}

/// The sum of the steps of a conference's ticks is small, since each tick is a step of the conference.
pub fn totals_are_small()
    ensures { TotalsAreSmall }
{}

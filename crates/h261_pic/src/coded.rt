//! A picture's strict text, as far as it was written, where the macroblocks of its groups stand, and their marks.

ghost use Rattle.std.specs.Prelude.{◌≡◌, ℕ, ◌+◌, ◌-◌, ◌*◌, ◌^◌, ◌<◌, ◌≤◌, ◌↔◌, [], ◌++◌, length, All, IsTrue, IsFalse, IfOk, slice_get, slice_index};
ghost use Rattle.pel_bits.specs.Bits.{bits};
ghost use Rattle.pel_bits.specs.Buffer.{filled_up};
ghost use Rattle.pel_model.specs.declared.Mark.{Mark as MarkOf};
ghost use Rattle.pel_model.specs.Records.{Picture, with_group};
ghost use Rattle.pel_model.specs.Refresh.{IsRefresh};
ghost use Rattle.pel_model.specs.Regions.{renumbered, empty_group as group_without_macroblocks};
ghost use Rattle.pel_model.specs.Headers.{group_header_length};
ghost use Rattle.pel_model.specs.Text.{picture_header, group_header};
ghost use Rattle.pel_model.specs.Valid.{group_numbers, group_count, limit};
ghost use Rattle.h261_pic.specs.Coded.{Coding, nothing, coding, grown, next_number, view_of, group_in, macroblock_bits, marks_in, placed, HasNextGroup, CanBeCopied, IsFinished, HasPicture, IsWhole};
ghost use Rattle.h261_pic.specs.Adding.{emptied, bits_at, most_marks, room_of, IsGroupText};

use crate::formats::{group_number, last_end, longest};
use arrayvec::ArrayVec;
use pel_bits::{BitBuf, Bits, NoMemory};
use pel_model::{Format, Mark};
use std::alloc::Global;
use std::marker::Model;

/// The most macroblocks that a picture has: 33 in each of 12 groups (H.261, 4.2.2).
const MOST_MARKS: usize = 396;

/// Where the macroblocks of a group of blocks stand in a picture's strict text.
#[derive(Clone, Copy, Debug, Default, PartialEq, Eq)]
pub struct GroupView {
    /// The group's number (GN).
    pub number: u8,
    /// The group's quantiser (GQUANT).
    pub quant: u8,
    /// The first bit behind the group's header.
    pub from: u32,
    /// The number of the macroblock bits.
    pub len: u32,
    /// The place of its first macroblock's mark among the picture's marks, from 0 on.
    pub first_mark: u16,
    /// The number of its macroblocks, which is that of their marks.
    pub marks: u16,
}

/// A coded picture of one format. Contracts see its format, its TR, its bits, its groups and its marks.
#[derive(Drop)]
pub struct Coded {
    format: Format,
    tr: u8,
    text: BitBuf,
    groups: ArrayVec<GroupView, 12>,
    marks: ArrayVec<Mark, MOST_MARKS>,
}

impl Model for Coded {
    ghost use Rattle.h261_pic.specs.Coded.{Coding};

    ghost Value = { Coding };

    ghost use Rattle.h261_pic.specs.Sound.{written, IsSound};

    ghost view = { written };

    ghost invariant = { IsSound };
}

impl Coded {
    /// An empty picture with room for the longest strict text of its format. It takes all its memory here; NoMemory where
    /// there is none.
    pub fn reserve(alloc: Global, format: Format) -> Result<Coded, NoMemory>
        ensures { IfOk result (λ coded. coded ≡ nothing format) }
    {
        Ok(Coded {
            format,
            tr: 0,
            text: BitBuf::with_capacity(alloc, longest(format))?,
            groups: ArrayVec::new(),
            marks: ArrayVec::new(),
        })
    }

    /// An empty picture in a box, as `reserve` makes it; NoMemory where there is no memory for either.
    pub fn boxed(alloc: Global, format: Format) -> Result<Box<Coded>, NoMemory>
        ensures { IfOk result (λ coded. coded.value ≡ nothing format) }
    {
        let Ok(coded) = Box::new(alloc, Coded::reserve(alloc, format)?) else {
            return Err(NoMemory);
        };
        Ok(coded)
    }

    /// The picture's format.
    pub fn format(&self) -> Format
        ensures { result ≡ self.now.format }
    {
        self.format
    }

    /// Whether nothing was written.
    pub fn is_empty(&self) -> bool
        ensures bits { IsTrue result ↔ (self.now.bits ≡ []) }
        ensures nothing { IsTrue result ↔ (self.now ≡ nothing self.now.format) }
    {
        self.text.len() == 0
    }

    /// The temporal reference (TR), 0 where nothing was written.
    pub fn tr(&self) -> u8
        ensures { result ≡ self.now.tr }
    {
        self.tr
    }

    /// The strict text, as far as it was written. What is written is a valid picture as far as it goes, and a valid
    /// picture where all its groups are there, within the greatest number of bits that its format allows.
    pub fn bits(&self) -> Bits<'_>
        ensures bits { result ≡ self.now.bits }
        ensures picture { 0 < length self.now.bits → HasPicture self.now }
        ensures whole { IsFinished self.now → IsWhole self.now }
        ensures within { length self.now.bits ≤ limit self.now.format }
    {
        self.text.bits()
    }

    /// Does nothing. Its contract is what holds of any coded picture, and `bits` tells too.
    pub fn tells_length(&self)
        ensures within { length self.now.bits ≤ limit self.now.format }
        ensures picture { 0 < length self.now.bits → HasPicture self.now }
        ensures whole { IsFinished self.now → IsWhole self.now }
    {
        let _ = &self.format;
    }

    /// How many macroblock bits the next group may have, so that the headers of the groups behind it still fit.
    pub fn room(&self) -> u32
        ensures { result + length self.now.bits
            + group_header_length * (group_count self.now.format - length self.now.groups)
            ≡ limit self.now.format }
    {
        last_end(self.format, self.groups.len() as u32) - self.text.len()
    }

    /// The octets of the strict text, with zeros from its last bit to the end of the octet.
    pub fn octets(&self) -> &[u8]
        ensures { bits result.now ≡ filled_up self.now.bits }
    {
        self.text.octets()
    }

    /// The marks of all macroblocks, in the order in which they are sent. Their places count from the first bit of the
    /// strict text.
    pub fn marks(&self) -> &[Mark]
        ensures { result.now ≡ self.now.marks }
    {
        self.marks.as_slice()
    }

    /// Whether this is a refresh: a QCIF picture that sends all its 99 macroblocks, each of them Intra (H.261, 3.2.1).
    pub fn is_refresh(&self) -> bool
        ensures refresh { (picture : Picture) → self.now ≡ coding self.now.format picture →
            (IsTrue result ↔ IsRefresh self.now.format picture) }
        ensures empty { self.now.bits ≡ [] → IsFalse result }
    {
        self.format == Format::Qcif
            && self.marks.len() == 99
            && self.marks.iter().all(|mark| mark.intra)
    }

    /// Where group `i` stands, from 0 on, of those that were written.
    pub fn group(&self, i: usize) -> GroupView
        requires { i < length self.now.groups }
        ensures { slice_get self.now.groups i ≡ Some result }
    {
        self.groups[i]
    }

    /// Takes everything away.
    pub fn clear(&mut self)
        ensures { self.new ≡ nothing self.old.format }
    {
        self.tr = 0;
        self.text.clear();
        self.groups.clear();
        self.marks.clear();
    }

    /// Takes everything away and writes a picture header with this TR, at most 31. The picture has no groups yet.
    pub fn start(&mut self, tr: u8)
        requires { tr < 32 }
        ensures { self.new ≡ coding self.old.format (record { tr = tr; groups = [] }) }
    {
        self.clear();
        self.tr = tr;
        push_picture_header(&mut self.text, self.format, tr);
    }

    /// Adds the next group with GQUANT 1 and no macroblocks. A picture has to be begun that has not all its groups.
    pub fn empty_group(&mut self)
        requires { HasNextGroup self.old }
        ensures grown { self.new ≡ grown self.old 1 [] [] }
        ensures picture { (p : Picture) → self.old ≡ coding self.old.format p →
            self.new ≡ coding self.old.format
            (with_group p (group_without_macroblocks (next_number self.old))) }
    {
        self.add_group(1, &Bits::new(&[], 0, 0), &[]);
    }

    /// Adds the next group, with the quantiser and the macroblocks of group `i`, from 0 on, of another picture that has all
    /// its groups. That group has to belong where the next one stands: the same group of the same format, or a QCIF group
    /// in one of the places of a CIF picture. Room has to be left for the headers of the groups behind it.
    pub fn copy_group(&mut self, from: &Coded, i: usize)
        requires next { HasNextGroup self.old }
        requires copied { CanBeCopied from.now i self.old }
        ensures grown { self.new ≡ grown self.old (view_of from.now i).quant
            (macroblock_bits from.now i) (marks_in from.now i) }
        ensures picture { (p q : Picture) →
            self.old ≡ coding self.old.format p → from.now ≡ coding from.now.format q →
            self.new ≡ coding self.old.format
            (with_group p (renumbered (next_number self.old) (group_in q i))) }
    {
        let view = from.groups[i];
        let first = usize::from(view.first_mark);
        let marks = &from.marks[first..first + usize::from(view.marks)];
        self.add_group(view.quant, &from.text.bits(), marks);
    }

    // Adds groups with GQUANT 1 and no macroblocks, up to the one with this place, from 0 on.
    pub(crate) fn add_empty_groups(&mut self, place: usize)
        requires begun { 0 < length self.old.bits }
        requires there { place ≤ group_count self.old.format }
        ensures { self.new ≡ emptied (place - length self.old.groups) self.old }
    {
        while self.groups.len() < place {
            self.empty_group();
        }
    }

    // Adds the next group, whose macroblocks stand in `source` at these marks.
    pub(crate) fn add_group(&mut self, quant: u8, source: &Bits<'_>, marks: &[Mark])
        requires begun { 0 < length self.old.bits }
        requires next { length self.old.groups < group_count self.old.format }
        requires inside { All (λ (m : MarkOf). m.at + m.len ≤ length source.now) marks.now }
        requires small { length source.now < 2 ^ 32 }
        requires room { length (bits_at source.now marks.now) ≤ room_of self.old }
        requires text { IsGroupText self.old.format (next_number self.old) quant
            (bits_at source.now marks.now) marks.now }
        ensures { self.new ≡ grown self.old quant (bits_at source.now marks.now) marks.now }
    {
        let number = group_number(self.format, self.groups.len());
        push_group_header(&mut self.text, number, quant);
        let from = self.text.len();
        let first_mark = self.marks.len() as u16;
        append_macroblocks(&mut self.text, &mut self.marks, number, source, marks);
        self.groups.push(GroupView {
            number,
            quant,
            from,
            len: self.text.len() - from,
            first_mark,
            marks: marks.len() as u16,
        });
    }
}

// Appends the macroblocks that stand in `source` at these marks, and their marks in the text. Those that stand one behind
// another are copied as one run.
fn append_macroblocks(
    text: &mut BitBuf,
    marks: &mut ArrayVec<Mark, MOST_MARKS>,
    group: u8,
    source: &Bits<'_>,
    found: &[Mark],
)
    requires inside { All (λ (m : MarkOf). m.at + m.len ≤ length source.now) found.now }
    requires room { length text.old.list + length (bits_at source.now found.now) ≤ text.old.capacity }
    requires places { length marks.old.items + length found.now ≤ most_marks }
    requires small { (text.old.capacity < 2 ^ 32) × (length source.now < 2 ^ 32) }
    ensures text { text.new ≡
        record text.old { list = text.old.list ++ bits_at source.now found.now } }
    ensures marks { marks.new.items ≡
        marks.old.items ++ placed (length text.old.list) group found.now }
{
    let mut from = 0;
    let mut len = 0;
    for mark in found {
        if mark.at != from + len {
            text.append(source.slice(from, len));
            from = mark.at;
            len = 0;
        }
        marks.push(Mark {
            at: text.len() + len,
            group,
            ..*mark
        });
        len += mark.len;
    }
    text.append(source.slice(from, len));
}

// Appends PSC, TR, PTYPE and a PEI of 0.
fn push_picture_header(text: &mut BitBuf, format: Format, tr: u8)
    requires room { length text.old.list + 32 ≤ text.old.capacity }
    requires fits { tr < 32 }
    ensures { text.new ≡ record text.old { list = text.old.list ++ picture_header format tr } }
{
    text.push(0b0000_0000_0000_0001_0000, 20);
    text.push(u32::from(tr), 5);
    let picture_type = match format {
        Format::Qcif => 0b000011,
        Format::Cif => 0b000111,
    };
    text.push(picture_type, 6);
    text.push(0, 1);
}

// Appends GBSC, GN, GQUANT and a GEI of 0.
fn push_group_header(text: &mut BitBuf, number: u8, quant: u8)
    requires room { length text.old.list + 26 ≤ text.old.capacity }
    requires number_fits { number < 16 }
    requires quant_fits { quant < 32 }
    ensures { text.new ≡ record text.old { list = text.old.list ++ group_header number quant } }
{
    text.push(0b0000_0000_0000_0001, 16);
    text.push(u32::from(number), 4);
    text.push(u32::from(quant), 5);
    text.push(0, 1);
}

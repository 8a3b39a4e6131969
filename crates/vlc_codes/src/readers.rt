//! The five readers: each takes the word of its list that comes next to the reader, or says why none does and
//! takes nothing.
#![tactic(auto)]

ghost use Rattle.std.specs.Prelude.{◌≡◌, ℕ, ◌+◌, ◌<◌, ◌≤◌, ◌++◌, pos, negsuc, ◌≤ℤ◌, cond, length, take, IfOk};
ghost use Rattle.pel_bits.specs.Bits.{number};
ghost use Rattle.pel_bits.specs.Reading.{zeros};
ghost use Rattle.pel_model.specs.Codes.{mtype_table, mvd_table, cbp_table, escape_word};
ghost use Rattle.pel_model.specs.Records.{Axis};
ghost use Rattle.pel_model.specs.Walk.{TakesWord, read, whole_word};
ghost use Rattle.pel_model.specs.Grammar.{Mtype, Mvd, Cbp, mba_rows, table_rows, first_rows, later_rows, coefficient_row, escape_row, signed, from_twos_complement};
ghost use Rattle.vlc_codes.specs.Lookup.{words};
ghost use Rattle.vlc_codes.specs.Inner.{TakesIndex};
ghost use Rattle.vlc_codes.specs.declared.lookup.Table.TheVariants.{CoefFirst, Coef};
ghost use Rattle.vlc_codes.specs.Rows.{mba_element, coefficient_element};

use crate::codes::{DIFFERENCES, KINDS, PAIRS, PATTERNS};
use crate::lookup::{Table, word_at};
use pel_bits::Reader;
use pel_model::{MbKind, Why};

/// A word of MBA (H.261, 4.2.3.1).
#[derive(Clone, Copy, Debug, PartialEq, Eq)]
pub enum MbaRow {
    /// The difference to the address before, from 1 to 33.
    Difference(u8),
    Stuffing,
}

/// A word of TCOEFF (H.261, 4.2.4.1).
#[derive(Clone, Copy, Debug, PartialEq, Eq)]
pub enum CoefRow {
    /// A code and its sign.
    Pair {
        /// How many zeros stand before the coefficient, from 0 to 26.
        run: u8,
        /// The coefficient's level, from -15 to 15 and not 0.
        level: i8,
    },
    /// An escape, whose run and level follow it as fixed fields.
    Escape {
        /// How many zeros stand before the coefficient, from 0 to 63.
        run: u8,
        /// The coefficient's level, from -128 to 127; 0 and -128 are forbidden there.
        level: i8,
    },
    /// The end of a block.
    Eob,
}

// Takes a codeword of a list, and gives its index in the list.
#[inline(always)]
fn take_word(table: Table, r: &mut Reader<'_>) -> Result<u16, Why>
    ensures index { TakesIndex (words table) result r.old r.new }
    ensures inside { IfOk result (λ index. index < length (words table)) }
{
    let cell = word_at(table, r, r.peek(32))?;
    r.skip(u32::from(cell.len));
    Ok(cell.value)
}

/// Takes a word of MBA (H.261, 4.2.3.1). Cut where what is left is the front of one, else NoCode.
#[inline(always)]
pub fn mba(r: &mut Reader<'_>) -> Result<MbaRow, Why>
    ensures { TakesWord mba_element (read mba_rows r.old.0) result r.old r.new }
{
    let index = take_word(Table::Mba, r)?;
    if index < 33 {
        Ok(MbaRow::Difference(index as u8 + 1))
    } else {
        Ok(MbaRow::Stuffing)
    }
}

/// Takes a word of MTYPE (H.261, 4.2.3.2). Cut where what is left is the front of one, else NoCode.
#[inline(always)]
pub fn mtype(r: &mut Reader<'_>) -> Result<MbKind, Why>
    ensures { TakesWord Mtype (read (table_rows mtype_table Mtype) r.old.0) result r.old r.new }
{
    let index = take_word(Table::Mtype, r)?;
    Ok(KINDS[usize::from(index)])
}

/// Takes a word of MVD (H.261, 4.2.3.4) and gives the two differences, -30 to 30, that it stands for, which are equal
/// where it stands for one. Cut where what is left is the front of a word, else NoCode.
#[inline(always)]
pub fn mvd(r: &mut Reader<'_>) -> Result<(i8, i8), Why>
    ensures word { (axis : Axis) →
        TakesWord (Mvd axis) (read (table_rows mvd_table (Mvd axis)) r.old.0) result r.old r.new }
    ensures range { IfOk result (λ v. (negsuc 29 ≤ℤ v.0) × (v.0 ≤ℤ pos 30) × (negsuc 29 ≤ℤ v.1) × (v.1 ≤ℤ pos 30)) }
{
    let index = take_word(Table::Mvd, r)?;
    Ok(DIFFERENCES[usize::from(index)])
}

/// Takes a word of CBP (H.261, 4.2.3.5) and gives the pattern: 32, 16, 8 and 4 for the luminance blocks, 2 for CB and 1
/// for CR. Cut where what is left is the front of a word, else NoCode.
#[inline(always)]
pub fn cbp(r: &mut Reader<'_>) -> Result<u8, Why>
    ensures { TakesWord Cbp (read (table_rows cbp_table Cbp) r.old.0) result r.old r.new }
{
    let index = take_word(Table::Cbp, r)?;
    Ok(PATTERNS[usize::from(index)])
}

/// Takes a word of TCOEFF (H.261, 4.2.4.1); `first` says that a block without INTRADC begins. The levels of an escape
/// are given as they stand, the forbidden ones too. Cut where what is left is the front of a word, else NoCode.
#[inline]
pub fn tcoeff(r: &mut Reader<'_>, first: bool) -> Result<CoefRow, Why>
    ensures { TakesWord coefficient_element (read (cond first first_rows later_rows) r.old.0) result r.old r.new }
{
    let top = r.peek(32);
    let cell = word_at(coefficient_table(first), r, top)?;
    let len = u32::from(cell.len);
    if cell.value < 63 {
        let (run, level) = PAIRS[usize::from(cell.value)];
        pair(r, top, len, run, level)
    } else if cell.value == 63 {
        escape(r, top)
    } else {
        r.skip(len);
        Ok(CoefRow::Eob)
    }
}

fn coefficient_table(first: bool) -> Table
    ensures { result ≡ cond first CoefFirst Coef }
{
    if first { Table::CoefFirst } else { Table::Coef }
}

// Takes a code of `len` bits, and the sign that follows it.
#[inline]
fn pair(r: &mut Reader<'_>, top: u32, len: u32, run: u8, level: u8) -> Result<CoefRow, Why>
    requires top { top ≡ number (take 32 (r.old.0 ++ zeros 32)) }
    requires short { len ≤ 16 }
    requires inside { len ≤ length r.old.0 }
    requires small { level ≤ 15 }
    ensures { (code : _) → length code ≡ len →
        TakesWord coefficient_element (whole_word (coefficient_row code run level) r.old.0) result r.old r.new }
{
    if r.left() <= len {
        return Err(Why::Cut);
    }
    let negative = (top >> (31 - len)) % 2 == 1;
    r.skip(len + 1);
    Ok(CoefRow::Pair {
        run,
        level: with_sign(level, negative),
    })
}

fn with_sign(level: u8, negative: bool) -> i8
    requires { level ≤ 15 }
    ensures { result ≡ signed level (cond negative 1 0) }
{
    let level = level as i8;
    if negative { -level } else { level }
}

// Takes an escape, 6 bits of run and 8 bits of level.
#[inline]
fn escape(r: &mut Reader<'_>, top: u32) -> Result<CoefRow, Why>
    requires top { top ≡ number (take 32 (r.old.0 ++ zeros 32)) }
    ensures { TakesWord coefficient_element (whole_word escape_row r.old.0) result r.old r.new }
{
    if r.left() < 20 {
        return Err(Why::Cut);
    }
    let fields = (top >> 12) % 0x4000;
    r.skip(20);
    Ok(CoefRow::Escape {
        run: (fields >> 8) as u8,
        level: level_of((fields % 0x100) as u8),
    })
}

// A level in two's complement.
fn level_of(octet: u8) -> i8
    ensures { result ≡ from_twos_complement octet }
{
    octet.cast_signed()
}

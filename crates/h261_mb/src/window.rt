//! The next 56 bits of a reader in one word, from which the words of a macroblock's header are taken without a look at the
//! octets for each. A word that the window does not show whole is not taken.

ghost use Rattle.std.specs.Prelude.{◌≡◌, ◌≢◌, ℕ, ◌<◌, ◌≤◌, ℤ, negsuc, pos, ◌≤ℤ◌, length, take, IfSome};
ghost use Rattle.pel_bits.specs.Reading.{skipped};
ghost use Rattle.pel_model.specs.Codes.{mtype_table, mvd_table, cbp_table};
ghost use Rattle.pel_model.specs.Records.{Axis};
ghost use Rattle.pel_model.specs.Walk.{IsTaken, read};
ghost use Rattle.pel_model.specs.Grammar.{Mba, Mtype, Mquant, Mvd, Cbp, mba_rows, table_rows, field_rows};
ghost use Rattle.vlc_codes.specs.Lookup.{words};
ghost use Rattle.vlc_codes.specs.Inner.{IsIndexTaken};

use crate::looks::first_word;
use pel_bits::Reader;
use pel_model::MbKind;
use std::marker::Model;
use vlc_codes::{DIFFERENCES, KINDS, PATTERNS, Table};

/// Bits that a reader would take next. Contracts see them, and how many were taken.
#[derive(Drop)]
pub struct Window {
    // the bits that are left stand first
    rest: u64,
    left: u32,
}

impl Model for Window {
    ghost use Rattle.std.specs.Prelude.{ℕ, ◌-◌, ◌≤◌, Bool, List, take};
    ghost use Rattle.pel_bits.specs.Bits.{field};

    ghost Value = { List Bool × ℕ };

    ghost view = { λ w. (take w.left (field w.rest 64), 56 - w.left) };

    ghost invariant = { λ w. w.left ≤ 56 };
}

impl Window {
    /// The next 56 bits of a reader.
    #[inline(always)]
    pub fn of(r: &Reader<'_>) -> Window
        requires { 56 ≤ length r.now.0 }
        ensures { result ≡ (take 56 r.now.0, 0) }
    {
        Window {
            rest: r.window() << 8,
            left: 56,
        }
    }

    /// How many bits were taken.
    #[inline(always)]
    pub fn taken(&self) -> u32
        ensures value { result ≡ self.now.1 }
        ensures within { result ≤ 56 }
    {
        56 - self.left
    }

    // Moves past `count` bits.
    #[inline(always)]
    fn skip(&mut self, count: u32)
        requires { count ≤ length self.old.0 }
        ensures { self.new ≡ skipped count self.old }
    {
        self.rest <<= count;
        self.left -= count;
    }

    // Takes a codeword of a list, and gives its index in the list.
    #[inline(always)]
    fn take_word(&mut self, table: Table) -> Option<u16>
        ensures index { IfSome result (λ index. IsIndexTaken (words table) index self.old self.new) }
        ensures inside { IfSome result (λ index. index < length (words table)) }
    {
        let cell = first_word(table, self.rest);
        let len = u32::from(cell.len);
        if len == 0 || len > self.left {
            return None;
        }
        self.skip(len);
        Some(cell.value)
    }

    /// Takes MBA and gives the difference of addresses (H.261, 4.2.3.1).
    #[inline(always)]
    pub fn mba(&mut self) -> Option<u8>
        ensures { IfSome result (λ d. IsTaken (read mba_rows self.old.0) (Mba d) self.old self.new) }
    {
        let index = self.take_word(Table::Mba)?;
        if index < 33 {
            Some(index as u8 + 1)
        } else {
            None
        }
    }

    /// Takes MTYPE (H.261, 4.2.3.2).
    #[inline(always)]
    pub fn mtype(&mut self) -> Option<MbKind>
        ensures { IfSome result (λ kind.
            IsTaken (read (table_rows mtype_table Mtype) self.old.0) (Mtype kind) self.old self.new) }
    {
        let index = self.take_word(Table::Mtype)?;
        Some(KINDS[usize::from(index)])
    }

    /// Takes MQUANT, 5 bits that are not 0 (H.261, 4.2.3.3).
    #[inline(always)]
    pub fn mquant(&mut self) -> Option<u8>
        ensures taken { IfSome result (λ quant.
            IsTaken (read (field_rows 5 Mquant) self.old.0) (Mquant quant) self.old self.new) }
        ensures some { IfSome result (λ quant. quant ≢ 0) }
    {
        let quant = (self.rest >> 59) as u8;
        if self.left < 5 || quant == 0 {
            return None;
        }
        self.skip(5);
        Some(quant)
    }

    /// Takes MVD and gives the two differences of a component that it stands for (H.261, 4.2.3.4).
    #[inline(always)]
    pub fn mvd(&mut self) -> Option<(i8, i8)>
        ensures word { (axis : Axis) → IfSome result (λ v.
            IsTaken (read (table_rows mvd_table (Mvd axis)) self.old.0) (Mvd axis v) self.old self.new) }
        ensures range { IfSome result (λ v.
            (negsuc 29 ≤ℤ v.0) × (v.0 ≤ℤ pos 30) × (negsuc 29 ≤ℤ v.1) × (v.1 ≤ℤ pos 30)) }
    {
        let index = self.take_word(Table::Mvd)?;
        Some(DIFFERENCES[usize::from(index)])
    }

    /// Takes CBP (H.261, 4.2.3.5).
    #[inline(always)]
    pub fn cbp(&mut self) -> Option<u8>
        ensures { IfSome result (λ pattern.
            IsTaken (read (table_rows cbp_table Cbp) self.old.0) (Cbp pattern) self.old self.new) }
    {
        let index = self.take_word(Table::Cbp)?;
        Some(PATTERNS[usize::from(index)])
    }
}

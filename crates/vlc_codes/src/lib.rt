//! The codewords of H.261's code tables: which of them comes next to a reader, or why none does.
#![tactic(auto)]

mod cells;
mod codes;
mod lookup;
mod readers;
#[cfg(test)]
mod tests;

ghost use Rattle.std.specs.Prelude.{◌≡◌, ℕ, ◌≤◌, Bool, true, List, ◌++◌, length};
ghost use Rattle.pel_bits.specs.Bits.{bits, field, number};
ghost use Rattle.pel_bits.specs.Reading.{skipped};
ghost use Rattle.pel_model.specs.Bits.{bits as model_bits, field as model_field, number as model_number};
ghost use Rattle.pel_model.specs.Codes.{is_prefix_free};
ghost use Rattle.pel_model.specs.Grammar.{Slot, rows};
ghost use Rattle.pel_model.specs.Walk.{Good, read, skipped as model_skipped};
ghost use Rattle.vlc_codes.specs.Lookup.{words, codes_of_rows};
ghost use Rattle.vlc_codes.specs.WholeWords.{ArePrefixFree};
ghost use Rattle.vlc_codes.specs.declared.lookup.Table.{Table};

pub use codes::{DIFFERENCES, KINDS, PATTERNS};
pub use lookup::{Cell, Table, look_up};
pub use readers::{CoefRow, MbaRow, cbp, mba, mtype, mvd, tcoeff};

/// The laws of the lists: no codeword of a list is a prefix of another, and no codeword that may stand behind some
/// elements of a picture is a prefix of another that may stand there; nor is a whole word, with the sign of a coefficient
/// or the run and the level of an escape. So a word that was read lies within the bits, and what follows it does not
/// change it. The bits of numbers and of octets, the numbers that bits spell, and the
/// positions of readings are in the model of pictures what they are to readers and buffers.
pub fn list_laws()
    ensures free { (table : Table) → is_prefix_free (words table) ≡ true }
    ensures slots { (slot : Slot) → is_prefix_free (codes_of_rows (rows slot)) ≡ true }
    ensures whole_words { (slot : Slot) → ArePrefixFree (rows slot) }
    ensures within { (slot : Slot) (bits : List Bool) (e : _) (n : ℕ) →
        read (rows slot) bits ≡ Good e n → n ≤ length bits }
    ensures followed { (slot : Slot) (bits more : List Bool) (e : _) (n : ℕ) →
        read (rows slot) bits ≡ Good e n → read (rows slot) (bits ++ more) ≡ Good e n }
    ensures fields { (n w : ℕ) → model_field n w ≡ field n w }
    ensures numbers { (bits : List Bool) → model_number bits ≡ number bits }
    ensures octets { (octets : List ℕ) → model_bits octets ≡ bits octets }
    ensures positions { (n : ℕ) (reading : List Bool × ℕ) → model_skipped n reading ≡ skipped n reading }
{}

//! The pictures of ticks: composed of what the places show, and sent.
ghost use Rattle.std.specs.Prelude.{◌≡◌, ◌≤◌, false, IfOk};
ghost use Rattle.bridge_live.specs.Sending.{MaySend, SendsTick};

use cif_mix::show;
use cif_pack::{Packer, Sent, Settings};
use h261_pic::{Coded, Hand};
use io_edge::{Failed, Sink};
use pel_bits::NoMemory;
use pel_model::{Format, TickNote};
use std::alloc::Global;
use std::marker::Model;

/// Composes the pictures of ticks and sends them. Contracts see its packer.
#[derive(Drop)]
pub struct PictureWriter {
    composed: Coded,
    packer: Packer,
}

impl Model for PictureWriter {
    ghost use Rattle.std.specs.Prelude.{◌≡◌};
    ghost use Rattle.cif_pack.specs.State.{PackerState};
    ghost use Rattle.pel_model.specs.declared.Format.TheVariants.{Cif};

    ghost Value = { PackerState };

    ghost view = { λ w. w.packer };

    ghost invariant = { λ w. w.composed.format ≡ Cif };
}

impl PictureWriter {
    /// A writer that has written nothing, with the mtu from 1,000 to 9,000. It takes all its memory here; NoMemory where
    /// there is none.
    pub fn reserve(alloc: Global, settings: Settings) -> Result<PictureWriter, NoMemory>
        requires { (1000 ≤ settings.mtu) × (settings.mtu ≤ 9000) }
        ensures { IfOk result (λ writer. writer ≡ record { settings = settings; spent = false }) }
    {
        Ok(PictureWriter {
            composed: Coded::reserve(alloc, Format::Cif)?,
            packer: Packer::reserve(alloc, settings)?,
        })
    }

    /// Writes the picture of a tick whose takes stand in the hand, with the sum of all steps at most 2^50. A sink that fails
    /// was given a front of its packets, and the writer is spent: it may not be called again. It takes no memory.
    pub fn write<K: Sink>(
        &mut self,
        note: &TickNote,
        hand: &Hand,
        sink: &mut K,
    ) -> Result<Sent, Failed>
        requires { MaySend note.now hand.now self.old }
        ensures { SendsTick note.now hand.now (K.tells sink.old) (K.tells sink.new) self.old self.new result }
    {
        show(note, hand, &mut self.composed);
        self.packer.pack(&self.composed, note.total, sink)
    }
}

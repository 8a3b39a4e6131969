//! A store of frames: what a decoder shows, picture after picture.

ghost use Rattle.std.specs.Prelude.{◌≡◌, ℕ, ◌<◌, true, IfOk};
ghost use Rattle.h261_pic.specs.Coded.{coding, IsFinished};
ghost use Rattle.io_edge.specs.Whole.{PutsAll};
ghost use Rattle.pel_model.specs.Decode.{decode};
ghost use Rattle.pel_model.specs.Frames.{is_inside};
ghost use Rattle.pel_model.specs.Records.{Picture};
ghost use Rattle.pel_model.specs.Transform.{fixed};
ghost use Rattle.pel_model.specs.Valid.{IsValid};
ghost use Rattle.ref_decode.specs.Shown.{Shown, frame_of, nothing_shown, plane_numbered, planes_of, sample_count};

use crate::picture::draw_picture;
use crate::sides::{luminance_sides, sample_count};
use h261_pic::Coded;
use io_edge::{Failed, Sink, put_all};
use pel_bits::NoMemory;
use pel_model::Format;
use std::alloc::Global;
use std::marker::Model;

/// What a decoder shows. Contracts see the format and the samples of the three planes, and read them as a frame.
///
/// A second set of planes takes the picture to come, since its vectors refer to samples anywhere in the frame that is shown.
#[derive(Drop)]
pub struct Store {
    format: Format,
    shown: Vec<u8>,
    next: Vec<u8>,
}

impl Model for Store {
    ghost use Rattle.std.specs.Prelude.{◌≡◌, vec_len};
    ghost use Rattle.ref_decode.specs.Shown.{Shown, sample_count};

    ghost Value = { Shown };

    ghost view = { λ s. record { format = s.format; samples = s.shown.items } };

    ghost invariant = { λ s. (vec_len s.shown ≡ sample_count s.format)
        × (vec_len s.next ≡ sample_count s.format) };
}

impl Store {
    /// A store of a format that shows samples of 0 alone. It takes all its memory here; NoMemory where there is none.
    pub fn reserve(alloc: Global, format: Format) -> Result<Store, NoMemory>
        ensures { IfOk result (λ store. store ≡ nothing_shown format) }
    {
        let count = sample_count(format);
        Ok(Store {
            format,
            shown: vec![in alloc; 0; count]?,
            next: vec![in alloc; 0; count]?,
        })
    }

    /// Decodes a picture that has all its groups, of the store's format (H.261, 3.2): the frame that is shown becomes the
    /// one that the picture makes of it, with this project's own transform, `fixed`. It takes no memory.
    pub fn show(&mut self, picture: &Coded)
        requires format { picture.now.format ≡ self.old.format }
        requires finished { IsFinished picture.now }
        ensures format { self.new.format ≡ self.old.format }
        ensures decoded { (p : Picture) → IsValid self.old.format p →
            picture.now ≡ coding self.old.format p →
            frame_of self.new ≡ decode self.old.format fixed (frame_of self.old) p }
    {
        self.next
            .as_mut_slice()
            .copy_from_slice(self.shown.as_slice());
        // a finished picture has no fault
        let shown = self.shown.as_slice();
        draw_picture(self.format, picture, shown, self.next.as_mut_slice()).ok();
        std::mem::swap(&mut self.shown, &mut self.next);
    }

    /// A sample that is shown, from 0 to 255, of a plane: 0 is luminance, 1 is CB and 2 is CR. `x` and `y` count from the top
    /// left and lie inside the picture.
    pub fn sample(&self, plane: u8, x: u16, y: u16) -> u8
        requires plane { plane < 3 }
        requires inside { is_inside self.now.format (plane_numbered plane) x y ≡ true }
        ensures { result ≡ frame_of self.now (plane_numbered plane) x y }
    {
        let (width, height) = luminance_sides(self.format);
        let (x, y) = (usize::from(x), usize::from(y));
        if plane == 0 {
            return self.shown[width * y + x];
        }
        let chroma = width / 2 * (height / 2);
        self.shown[width * height + usize::from(plane - 1) * chroma + width / 2 * y + x]
    }

    /// Writes the planes that are shown, luminance, CB and CR, each by rows: 38,016 octets of a QCIF store, 152,064 of a CIF
    /// store. A sink that fails has been given a front of them.
    pub fn write_planes<K: Sink>(&self, sink: &mut K) -> Result<(), Failed>
        ensures { PutsAll (K.tells sink.old) (K.tells sink.new)
            (planes_of self.now.format (frame_of self.now)) result }
    {
        put_all(sink, self.shown.as_slice())
    }
}

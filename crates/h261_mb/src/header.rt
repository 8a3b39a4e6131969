//! The header of a macroblock: its elements before its blocks (H.261, 4.2.3).

ghost use Rattle.std.specs.Prelude.{◌≡◌, ◌<◌, true, slice_get};
ghost use Rattle.pel_model.specs.Bits.{field};
ghost use Rattle.pel_model.specs.Codes.{is_intra};
ghost use Rattle.pel_model.specs.Grammar.{is_group};
ghost use Rattle.h261_mb.specs.Parts.{HeaderMayCome};
ghost use Rattle.h261_mb.specs.State.{IsReady, ReadsHeader, state_behind};

use crate::ahead::take_header;
use crate::front::read_front;
use crate::kinds::is_intra;
use crate::pattern::read_pattern;
use crate::state::MbState;
use crate::vector::read_vector;
use crate::window::Window;
use pel_bits::Reader;
use pel_model::{Fault, Format, MbKind};

/// What each of the six blocks adds to the coded block pattern (H.261, 4.2.3.5).
const BLOCK_BITS: [u8; 6] = [32, 16, 8, 4, 2, 1];

/// What the header of a macroblock says, with what the macroblocks before it say of it.
#[derive(Clone, Copy, Debug, PartialEq, Eq)]
pub struct Header {
    /// The address in the group, from 1 to 33.
    pub address: u8,
    /// The kind (MTYPE).
    pub kind: MbKind,
    /// The quantiser in effect.
    pub quant: u8,
    /// The horizontal component of the vector, -15 to 15, 0 where the kind has none.
    pub h: i8,
    /// The vertical component, 0 where the kind has no vector.
    pub v: i8,
    /// The coded block pattern: 32, 16, 8 and 4 for the luminance blocks that are sent, 2 for CB and 1 for CR. It is 63
    /// where the kind is Intra, and 0 where the kind sends no blocks.
    pub pattern: u8,
}

impl Header {
    /// Whether the macroblock is Intra.
    pub fn is_intra(&self) -> bool
        ensures { result ≡ is_intra self.now.kind }
    {
        is_intra(self.kind)
    }

    /// Whether a block is sent: 0 to 3 are of luminance, 4 is CB and 5 is CR.
    pub fn sends(&self, block: usize) -> bool
        requires { block < 6 }
        ensures { slice_get (field self.now.pattern 6) block ≡ Some result }
    {
        self.pattern / BLOCK_BITS[block] % 2 == 1
    }

    /// The state behind the macroblock.
    pub fn state_behind(&self) -> MbState
        ensures { result ≡ state_behind self.now }
    {
        MbState {
            address: self.address,
            quant: self.quant,
            h: self.h,
            v: self.v,
        }
    }
}

/// Reads the header of a macroblock, from MBA to CBP. `state` is that behind a group header or a macroblock of the group.
/// Stuffing stands before the call: here it is answered NoCode. `group` is the group's number (GN), one of the format;
/// vectors are in luminance samples.
///
/// At a fault, NoCode, Cut, BadAddress, BadQuant, BadVector or VectorOutside, the reader stands at the element at fault.
/// Behind the header stand the blocks of the pattern, and then `state_behind` of it is the state.
pub fn read_header(
    r: &mut Reader<'_>,
    format: Format,
    group: u8,
    state: &MbState,
) -> Result<Header, Fault>
    requires group { is_group format group ≡ true }
    requires ready { IsReady state.now }
    ensures { ReadsHeader format group state.now result r.old r.new }
{
    if r.left() >= 56 {
        let mut window = Window::of(r);
        if let Some(header) = take_header(&mut window, format, group, state) {
            r.skip(window.taken());
            return Ok(header);
        }
    }
    // (a result of its own, since one that a call writes stays in memory)
    let header = read_by_elements(r, format, group, state)?;
    Ok(header)
}

// The same, element by element from the reader.
#[cold]
#[inline(never)]
fn read_by_elements(
    r: &mut Reader<'_>,
    format: Format,
    group: u8,
    state: &MbState,
) -> Result<Header, Fault>
    requires { HeaderMayCome format group state.now }
    ensures { ReadsHeader format group state.now result r.old r.new }
{
    let front = read_front(r, state)?;
    let (h, v) = read_vector(r, format, group, &front)?;
    let pattern = read_pattern(r, front.kind)?;
    Ok(Header {
        address: front.address,
        kind: front.kind,
        quant: front.quant,
        h,
        v,
        pattern,
    })
}

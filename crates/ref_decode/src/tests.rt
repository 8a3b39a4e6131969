//! What is shown after small pictures: by hand where all samples of a block are alike, else as an independent model of the
//! decoder shows it.

ghost use Rattle.std.specs.Prelude.{◌≡◌, ◌<◌, ◌≤◌, IfOk, unsigned_abs};
ghost use Rattle.pel_model.specs.declared.Format.TheVariants.{Qcif};

use crate::pictures::{
    EACH_KIND, GREY, GROUP_1, GROUP_3, GROUP_5, QCIF_HEADER, SMALL, Sent, TEXTURES,
};
use crate::{Store, fixed};
use h261_pic::{Coded, parse};
use io_edge::MemSink;
use pel_bits::NoMemory;
use pel_model::Format::Qcif;
use std::alloc::Global;
use std::test::Fail;

/// A decoder of QCIF, and the picture that it read last.
#[derive(Drop)]
struct Screen {
    picture: Coded,
    store: Store,
}

impl Screen {
    fn reserve(alloc: Global) -> Result<Screen, NoMemory>
        ensures picture { IfOk result (λ screen. screen.picture.format ≡ Qcif) }
        ensures store { IfOk result (λ screen. screen.store.format ≡ Qcif) }
    {
        Ok(Screen {
            picture: Coded::reserve(alloc, Qcif)?,
            store: Store::reserve(alloc, Qcif)?,
        })
    }

    // Shows the picture that these pieces are, each so many times.
    fn show(&mut self, alloc: Global, pieces: &[(&str, u32)]) -> Result<(), Fail>
        requires picture { self.old.picture.format ≡ Qcif }
        requires store { self.old.store.format ≡ Qcif }
        ensures picture { IfOk result (λ _. self.new.picture.format ≡ Qcif) }
        ensures store { IfOk result (λ _. self.new.store.format ≡ Qcif) }
    {
        let sent = Sent::of(alloc, pieces)?;
        parse(sent.bits(), Qcif, &mut self.picture)?;
        self.store.show(&self.picture);
        Ok(())
    }

    // The octets of its planes.
    fn planes(&self, alloc: Global) -> Result<Vec<u8>, Fail> {
        let mut sink = MemSink::reserve(alloc, 40_000, Vec::new(alloc), 1000)?;
        self.store.write_planes(&mut sink)?;
        let mut octets = Vec::new(alloc);
        octets.extend_from_slice(sink.bytes())?;
        Ok(octets)
    }
}

// A number of octets in their order.
fn digest(octets: &[u8]) -> u32 {
    let mut digest = 0_u32;
    for octet in octets {
        digest = digest.wrapping_mul(31).wrapping_add(u32::from(*octet));
    }
    digest
}

// The place of a luminance sample.
fn place(x: u8, y: u8) -> usize {
    176 * usize::from(y) + usize::from(x)
}

// A picture of one macroblock.
fn alone<'a>(macroblock: &'a str) -> [(&'a str, u32); 5] {
    [
        (QCIF_HEADER, 1),
        (GROUP_1, 1),
        (macroblock, 1),
        (GROUP_3, 1),
        (GROUP_5, 1),
    ]
}

const ALL_GREY: [(&str, u32); 7] = [
    (QCIF_HEADER, 1),
    (GROUP_1, 1),
    (GREY, 33),
    (GROUP_3, 1),
    (GREY, 33),
    (GROUP_5, 1),
    (GREY, 33),
];

// The transform of one coefficient, with the others 0.
fn fixed_alone(place: usize, value: i32) -> [i16; 64]
    requires place { place < 64 }
    requires value { unsigned_abs value ≤ 2048 }
{
    let mut coefs = [0; 64];
    coefs[place] = value;
    fixed(&coefs)
}

#[test]
fn values_of_the_transform(rt: HostRuntime) {
    for (residual, all) in [
        (fixed_alone(0, 1024), 128),
        (fixed_alone(0, 23), 3),
        (fixed_alone(0, -2048), -256),
        (fixed_alone(0, 2047), 255),
    ] {
        assert_eq!(rt; residual, [all; 64]);
    }
    // horizontal index 1 gives a wave along each row, and vertical index 1 one down each column
    let wave = [17, 15, 10, 3, -3, -10, -15, -17];
    for (k, residual) in fixed_alone(1, 100).into_iter().enumerate() {
        assert_eq!(rt; residual, wave[k % 8], "across, at {k}");
    }
    for (k, residual) in fixed_alone(8, 100).into_iter().enumerate() {
        assert_eq!(rt; residual, wave[k / 8 % 8], "down, at {k}");
    }
}

#[test]
fn grey_and_small(rt: HostRuntime) -> Result<(), Fail> {
    let alloc = rt.alloc();
    let mut screen = Screen::reserve(alloc)?;
    screen.show(alloc, &ALL_GREY)?;
    let grey = screen.planes(alloc)?;
    assert_eq!(rt; grey.len(), 38_016);
    assert!(rt; grey.as_slice().iter().all(|sample| *sample == 128));
    screen.show(alloc, &alone(SMALL))?;
    for (k, sample) in screen.planes(alloc)?.as_slice().iter().enumerate() {
        let in_block = k / 176 < 8 && k % 176 < 8;
        assert_eq!(rt; *sample, if in_block { 131 } else { 128 }, "at {k}");
    }
    let corners = [
        screen.store.sample(0, 7, 7),
        screen.store.sample(0, 175, 143),
        screen.store.sample(1, 0, 0),
        screen.store.sample(2, 87, 71),
    ];
    assert_eq!(rt; corners, [131, 128, 128, 128]);
    Ok(())
}

// Small stands alone on black; then comes a picture of one macroblock.
#[test]
fn vectors_and_the_filter(rt: HostRuntime) -> Result<(), Fail> {
    let alloc = rt.alloc();
    for (macroblock, samples) in [
        // address 2, vector (-15, 0): it refers to columns 1 to 16
        (
            "011 000000001 00000011011 1",
            [(16, 0, 3), (22, 7, 3), (23, 7, 0), (0, 0, 3)],
        ),
        // address 12, vector (0, -15): it refers to rows 1 to 16
        (
            "00001001 000000001 1 00000011011",
            [(0, 16, 3), (7, 22, 3), (7, 23, 0), (0, 0, 3)],
        ),
        // address 1, the filter without motion: a block that is all alike stays so up to its edges
        ("1 001 1 1", [(0, 0, 3), (7, 7, 3), (8, 0, 0), (0, 8, 0)]),
        // address 1, Intra, INTRADC 16 in each block: nothing of the prediction is left
        (
            "1 0001 00010000 10 00010000 10 00010000 10 00010000 10 00010000 10 00010000 10",
            [(0, 0, 16), (15, 15, 16), (16, 0, 0), (0, 16, 0)],
        ),
    ] {
        let mut screen = Screen::reserve(alloc)?;
        screen.show(alloc, &alone(SMALL))?;
        screen.show(alloc, &alone(macroblock))?;
        let planes = screen.planes(alloc)?;
        for (x, y, sample) in samples {
            assert_eq!(rt;
                planes.get(place(x, y)),
                Some(&sample),
                "{macroblock} at {x}, {y}"
            );
        }
    }
    Ok(())
}

#[test]
fn each_kind_of_macroblock_as_an_independent_model_shows_it(rt: HostRuntime) -> Result<(), Fail> {
    let alloc = rt.alloc();
    let [first, third, fifth] = TEXTURES;
    let textures = [
        (QCIF_HEADER, 1),
        (GROUP_1, 1),
        (first, 33),
        (GROUP_3, 1),
        (third, 33),
        (GROUP_5, 1),
        (fifth, 33),
    ];
    let mut screen = Screen::reserve(alloc)?;
    screen.show(alloc, &textures)?;
    let before = screen.planes(alloc)?;
    assert_eq!(rt; digest(&before), 3_801_496_327);
    screen.show(alloc, &EACH_KIND)?;
    let after = screen.planes(alloc)?;
    for (x, y, was, is) in [
        (16, 0, 61, 58),
        (0, 16, 61, 98),
        (3, 50, 81, 103),
        (20, 50, 120, 1),
        (70, 60, 140, 182),
        (80, 60, 182, 148),
        (120, 55, 86, 86),
        (144, 55, 255, 144),
        (155, 115, 255, 253),
        (168, 120, 133, 68),
    ] {
        let samples = (before.get(place(x, y)), after.get(place(x, y)));
        assert_eq!(rt; samples, (Some(&was), Some(&is)), "at {x}, {y}");
    }
    assert_eq!(rt; digest(&after), 1_236_340_236);
    Ok(())
}

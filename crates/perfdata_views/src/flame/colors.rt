//! The colors of boxes.

use perfdata_profile::function_kinds::FrameKind;

// The number of shades of a hue, less one.
const SHADES: u32 = 63;

// The first and the last shade of a hue: red, green and blue.
#[derive(Clone, Copy)]
struct Hue {
    first: [u8; 3],
    last: [u8; 3],
}

// Returns the hue of a kind of frames.
fn kind_hue(kind: FrameKind) -> Hue {
    let (first, last) = match kind {
        FrameKind::Thread => ([184, 184, 196], [208, 208, 216]),
        FrameKind::User => ([222, 92, 32], [250, 216, 72]),
        FrameKind::Kernel => ([112, 164, 220], [164, 206, 250]),
        FrameKind::Generated => ([100, 182, 96], [168, 226, 144]),
        FrameKind::Unknown => ([196, 148, 204], [228, 190, 234]),
    };
    Hue { first, last }
}

// Returns the shade of a name (FNV-1a).
fn shade(name: &[u8]) -> u32 {
    let mut hash = 0x811c_9dc5u32;
    for byte in name {
        hash = (hash ^ *byte as u32).wrapping_mul(0x0100_0193);
    }
    hash % (SHADES + 1)
}

// Returns a part of a color: that of a shade between the first and the last.
fn blend(first: u8, last: u8, shade: u32) -> u8 {
    let range = last.saturating_sub(first) as u32;
    let lighter = range * shade.min(SHADES) / SHADES;
    first.saturating_add(u8::try_from(lighter).unwrap_or(u8::MAX))
}

/// Returns the color of a frame: the hue of its kind, in a shade that depends on its name alone.
pub(crate) fn frame_color(kind: FrameKind, name: &[u8]) -> [u8; 3] {
    let Hue { first, last } = kind_hue(kind);
    let shade = shade(name);
    [
        blend(first[0], last[0], shade),
        blend(first[1], last[1], shade),
        blend(first[2], last[2], shade),
    ]
}

/// Returns a color that is nearer to white by half, that of an inlined function.
pub(crate) fn lighter(color: [u8; 3]) -> [u8; 3] {
    [
        half_to_white(color[0]),
        half_to_white(color[1]),
        half_to_white(color[2]),
    ]
}

// Returns the part of a color that is half as far from white.
fn half_to_white(part: u8) -> u8 {
    part.saturating_add((u8::MAX - part) / 2)
}

// The places of the charge picture, in whole units of its own.
ghost use Rattle.std.specs.Prelude.{◌≡◌, ◌+◌, ◌≤◌};
ghost use Rattle.survey.specs.Geometry.{scaled, left, top, width, height, height_of, edge_of, ScaledRises};

// The field in which the charge is drawn.
pub const LEFT: u32 = 110;

pub const TOP: u32 = 20;

pub const WIDTH: u32 = 870;

pub const HEIGHT: u32 = 220;

// What a part of a whole takes of a length, rounded down; all of it where the part
// is more than the whole.
pub fn scaled(part: u64, whole: u64, length: u32) -> u32
    ensures value { result ≡ scaled part whole length }
    ensures within { result ≤ length }
    ensures rises { ScaledRises }
{
    if whole == 0 {
        return 0;
    }
    let part = part.min(whole) as u128;
    (part * length as u128 / whole as u128) as u32
}

// The height at which a charge is drawn: the greatest at the top, none at the
// bottom.
pub fn height_of(charge: u64, greatest: u64) -> u32
    ensures value { result ≡ height_of charge greatest }
    ensures below_top { top ≤ result }
    ensures above_bottom { result ≤ top + height }
{
    TOP + HEIGHT - scaled(charge, greatest, HEIGHT)
}

// Where a column of so many begins; the one past the last is at the right edge.
pub fn edge_of(column: usize, count: usize) -> u32
    ensures value { result ≡ edge_of column count }
    ensures from_left { left ≤ result }
    ensures to_right { result ≤ left + width }
{
    LEFT + scaled(column as u64, count as u64, WIDTH)
}

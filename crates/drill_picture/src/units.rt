//! Units of a picture, by numbers alone.

ghost use Rattle.std.specs.Prelude.{◌≡◌, ◌<◌, ◌≤◌, ◌^◌};
ghost use Rattle.drill_picture.specs.Units.{lane_height, scaled, shown_of, step_of};

// How many units a lane is high.
pub(crate) fn lane_height(nodes: u64) -> u64
    ensures height { result ≡ lane_height nodes }
    ensures bound { result ≤ 46 }
{
    if nodes <= 4 {
        46
    } else if nodes <= 8 {
        36
    } else if nodes <= 16 {
        26
    } else {
        18
    }
}

// So many units for each of some parts.
#[tactic(auto, unfolding(crate::specs::Units::scaled))]
pub(crate) fn scaled(part: u64, unit: u64, parts: u64) -> u64
    requires part { part < 2 ^ 35 }
    requires unit { unit ≤ 1024 }
    requires parts { 1 ≤ parts }
    ensures value { result ≡ scaled part unit parts }
    ensures bound { result < 2 ^ 46 }
{
    part * unit / parts
}

pub(crate) fn step_of(columns: u64) -> u64
    requires { columns < 2 ^ 32 }
    ensures step { result ≡ step_of columns }
    ensures some { 1 ≤ result }
    ensures bound { result < 2 ^ 33 }
{
    ((columns + 269) / 270).max(1)
}

pub(crate) fn shown_of(columns: u64, step: u64) -> u64
    requires columns { columns < 2 ^ 32 }
    requires some { 1 ≤ step }
    requires short { step < 2 ^ 33 }
    ensures shown { result ≡ shown_of columns step }
    ensures some { 1 ≤ result }
    ensures bound { result < 2 ^ 33 }
{
    ((columns + step - 1) / step).max(1)
}

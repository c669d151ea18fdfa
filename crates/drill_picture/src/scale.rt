//! Where columns and lanes lie.

ghost use Rattle.std.specs.Prelude.{◌≡◌, ◌<◌, ◌≤◌, ◌^◌};
ghost use Rattle.drill_picture.specs.Scale.{bar_height, bin_of, bin_x, column_x, is_binned};
ghost use Rattle.drill_picture.specs.Scale.{lane_y, lanes_end, scale_of};

use crate::units::{lane_height, scaled, shown_of, step_of};
use std::marker::Model;

/// Where columns and lanes lie, in whole units: a picture is 1000 wide, its columns from 76 to 888.
#[derive(Debug, Drop)]
pub struct Scale {
    // How many nodes there are, each with its lane.
    nodes: u64,
    // How many columns of calls one column of the picture holds.
    step: u64,
    // How many columns the picture has.
    shown: u64,
}

impl Model for Scale {
    ghost use Rattle.std.specs.Prelude.{◌<◌, ◌≤◌, ◌^◌};
    ghost use Rattle.drill_picture.specs.Scale.{ScaleTold};

    ghost Value = { ScaleTold };

    ghost view = { λ s. record { nodes = s.nodes; step = s.step; shown = s.shown } };

    ghost invariant = { λ s. (s.nodes ≤ 256) × (1 ≤ s.step) × (s.step < 2 ^ 33)
        × (1 ≤ s.shown) × (s.shown < 2 ^ 33) };
}

impl Scale {
    /// The scale of so many nodes and columns of calls.
    pub fn of(nodes: usize, columns: u32) -> Scale
        requires { nodes ≤ 256 }
        ensures { result ≡ scale_of nodes columns }
    {
        let columns = u64::from(columns);
        let step = step_of(columns);
        Scale {
            nodes: nodes as u64,
            step,
            shown: shown_of(columns, step),
        }
    }

    /// How many nodes there are.
    pub fn nodes(&self) -> u64
        ensures nodes { result ≡ self.now.nodes }
        ensures bound { result ≤ 256 }
    {
        self.nodes
    }

    /// How many columns the picture has.
    pub fn shown(&self) -> u64
        ensures shown { result ≡ self.now.shown }
        ensures some { 1 ≤ result }
        ensures bound { result < 2 ^ 33 }
    {
        self.shown
    }

    /// Whether a column of the picture holds several columns of calls.
    pub fn is_binned(&self) -> bool
        ensures { result ≡ is_binned self.now }
    {
        self.step > 1
    }

    /// The column of the picture that holds a column of calls.
    pub(crate) fn bin_of(&self, column: u32) -> u64
        ensures bin { result ≡ bin_of self.now column }
        ensures bound { result < 2 ^ 32 }
    {
        u64::from(column) / self.step
    }

    /// The middle of a column of the picture.
    pub(crate) fn bin_x(&self, bin: u64) -> u64
        requires { bin < 2 ^ 33 }
        ensures { result ≡ bin_x self.now bin }
    {
        76 + scaled(2 * bin + 1, 812, 2 * self.shown)
    }

    /// The middle of the column of the picture that holds a column of calls.
    pub(crate) fn column_x(&self, column: u32) -> u64
        ensures { result ≡ column_x self.now column }
    {
        self.bin_x(self.bin_of(column))
    }

    /// The line of a node's lane.
    pub(crate) fn lane_y(&self, node: u8) -> u64
        ensures { result ≡ lane_y self.now node }
    {
        58 + scaled(8 * u64::from(node) + 5, lane_height(self.nodes), 8)
    }

    /// Where the last lane ends.
    pub(crate) fn lanes_end(&self) -> u64
        ensures end { result ≡ lanes_end self.now }
        ensures bound { result < 2 ^ 47 }
    {
        66 + scaled(self.nodes, lane_height(self.nodes), 1)
    }

    /// How high a bar of so many calls is.
    pub(crate) fn bar_height(&self, count: u64) -> u64
        ensures { result ≡ bar_height self.now count }
    {
        1 + scaled(count.min(self.step), lane_height(self.nodes), 2 * self.step)
    }
}

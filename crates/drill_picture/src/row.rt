//! Where rights are.

ghost use Rattle.std.specs.Prelude.{◌≡◌, ◌≤◌, IfOk, slice_index};
ghost use Rattle.drill_picture.specs.Rights.{after_arrival, after_grant, after_send, after_spend};
ghost use Rattle.drill_picture.specs.Rights.{empty_row};

use std::alloc::{AllocError, Global};
use std::marker::Model;

/// What a column of a chart shows: the rights that there are, how many were spent, how many each node
/// holds, and how many are on their way to it. Whatever the calls are, they add up.
#[derive(Drop)]
pub(crate) struct Row {
    // What was counted and granted.
    whole: u64,
    spent: u64,
    // Of each node.
    held: Vec<u64>,
    way: Vec<u64>,
}

impl Model for Row {
    ghost use Rattle.std.specs.Prelude.{◌≡◌, ◌+◌, ◌≤◌, length, sum};
    ghost use Rattle.drill_picture.specs.Rights.{RowTold};

    ghost Value = { RowTold };

    ghost view = { λ r. record {
      whole = r.whole;
      spent = r.spent;
      held = r.held.items;
      way = r.way.items;
    } };

    ghost invariant = { λ r. (r.spent + (sum r.held.items + sum r.way.items) ≡ r.whole)
        × (r.whole ≤ 18446744073709551615) × (length r.held.items ≡ length r.way.items) };
}

impl Row {
    /// So many nodes without any right.
    pub(crate) fn empty(alloc: Global, nodes: usize) -> Result<Row, AllocError>
        ensures { IfOk result (λ row. row ≡ empty_row nodes) }
    {
        Ok(Row {
            whole: 0,
            spent: 0,
            held: vec![in alloc; 0; nodes]?,
            way: vec![in alloc; 0; nodes]?,
        })
    }

    /// The rights that there are.
    pub(crate) fn whole(&self) -> u64
        ensures { result ≡ self.now.whole }
    {
        self.whole
    }

    /// How many were spent.
    pub(crate) fn spent(&self) -> u64
        ensures { result ≡ self.now.spent }
    {
        self.spent
    }

    /// How many a node holds.
    pub(crate) fn held_by(&self, node: usize) -> u64
        ensures { result ≡ slice_index self.now.held node }
    {
        match self.held.get(node) {
            Some(held) => *held,
            None => 0,
        }
    }

    /// How many are on their way to a node.
    pub(crate) fn way_to(&self, node: usize) -> u64
        ensures { result ≡ slice_index self.now.way node }
    {
        match self.way.get(node) {
            Some(way) => *way,
            None => 0,
        }
    }

    /// A node gets rights that weren't there before.
    #[tactic(auto, unfolding(crate::specs::Rights::after_grant))]
    pub(crate) fn grant(&mut self, node: usize, amount: u64)
        ensures { self.new ≡ after_grant node amount self.old }
    {
        if node < self.held.len() {
            let fitting = amount.min(u64::MAX - self.whole);
            self.held[node] += fitting;
            self.whole += fitting;
        }
    }

    /// It spends one, if it holds one.
    #[tactic(auto, unfolding(crate::specs::Rights::after_spend))]
    pub(crate) fn spend(&mut self, node: usize)
        ensures { self.new ≡ after_spend node self.old }
    {
        if node < self.held.len() && self.held[node] > 0 {
            self.held[node] -= 1;
            self.spent += 1;
        }
    }

    /// It sends some of those that it holds to another.
    #[tactic(auto, unfolding(crate::specs::Rights::after_send))]
    pub(crate) fn send(&mut self, node: usize, to: usize, amount: u64)
        ensures { self.new ≡ after_send node to amount self.old }
    {
        if node < self.held.len() && to < self.way.len() {
            let sent = amount.min(self.held[node]);
            self.held[node] -= sent;
            self.way[to] += sent;
        }
    }

    /// Some of those that are on their way to it arrive.
    #[tactic(auto, unfolding(crate::specs::Rights::after_arrival))]
    pub(crate) fn arrive(&mut self, node: usize, amount: u64)
        ensures { self.new ≡ after_arrival node self.old amount }
    {
        if node < self.held.len() {
            let arriving = amount.min(self.way[node]);
            self.way[node] -= arriving;
            self.held[node] += arriving;
        }
    }
}

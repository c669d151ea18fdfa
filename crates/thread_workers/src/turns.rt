//! When workers may call.

ghost use Rattle.std.specs.Prelude.{◌≡◌, slice_get, Some};

use crate::looks::{Look, Looks};
use crate::waiting::Waiting;
use crate::waits::Await;
use node_registry::{Gate, Registry};
use std::sync::Wait;
use std::thread;

/// How often a thread that waits lets others run before it looks at its node again.
const YIELDS: u32 = 64;

/// Lets the workers of a node wait before calls, and then make them.
#[derive(Drop)]
pub(crate) struct Turns<'a, L: Waiting, R: Wait> {
    pub rt: &'a R,
    pub registry: &'a Registry<L>,
    pub looks: &'a Looks<'a, L>,
    pub node: u8,
}

fn let_others_run() {
    for _time in 0..YIELDS {
        thread::yield_now();
    }
}

impl<L: Waiting, R: Wait> Turns<'_, L, R> {
    // Waits until the first rounds are done.
    fn wait_first(&self) {
        for _ in self.rt.forever() {
            if self.looks.waits.are_first_done(self.node) {
                return;
            }
            let_others_run();
        }
    }

    // Waits until the node knows the setting, or its gossip is over. Whether that is so is looked at
    // before: what the last round brought is known then.
    fn wait_for(&self, place: usize, wait: &Await)
        requires { slice_get L.waits place ≡ Some wait.now }
    {
        for _ in self.rt.forever() {
            let is_over = self.looks.waits.is_over(self.node);
            let look = Look::now(self.rt, self.registry, place, wait);
            if look.is_known() || is_over {
                self.looks.keep(self.rt, look);
                return;
            }
            let_others_run();
        }
    }
}

impl<L: Waiting, R: Wait> Gate for Turns<'_, L, R> {
    ghost use Rattle.std.specs.Prelude.{◌≡◌, true};

    ghost says = { λ _ _ _ answer. answer ≡ true };

    fn turn(&self, worker: u16, index: u32) -> bool {
        if index == 0 {
            self.wait_first();
        }
        for (place, wait) in self.looks.waits.awaits.iter().enumerate() {
            if wait.is_before(self.node, worker, index) {
                self.wait_for(place, wait);
            }
        }
        true
    }

    fn answered(&self, _worker: u16, _index: u32) {}
}

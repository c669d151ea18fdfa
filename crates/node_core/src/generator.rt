//! Passes with a generator's random draws.

ghost use Rattle.std.specs.Prelude.{◌≡◌, ◌<◌, ◌^◌, option_map, Some, IfOk, IfErr, IsErrOf, OnErr, OnOk};
ghost use Rattle.node_calls.specs.Asks as asks;
ghost use Rattle.node_calls.specs.Told.{passed};
ghost use Rattle.node_core.specs.Lasts.{last_passed};
ghost use Rattle.node_core.specs.Memory.{NameNeedsMemory};
ghost use Rattle.node_steps.specs.Passes.{words_for};
ghost use Rattle.node_core.specs.Traces.{Accepts, IsRefusalOf, reply_to, state_known};
ghost use Rattle.node_steps.specs.Words.{words_next, place_after};

use crate::node::NodeCore;
use actions::Name;
use node_calls::{NodeFault, PassReply};
use node_steps::Generator;
use std::alloc::Global;

impl NodeCore {
    /// Passes a point with a generator's next random draws, as many as it needs, and answers these
    /// beside the reply. The random draws of a refused pass are put back.
    pub fn pass_generating(
        &mut self,
        alloc: Global,
        name: &str,
        generator: &mut Generator,
    ) -> Result<(Vec<u32>, PassReply), NodeFault>
        ensures ok { IfOk result (λ r. Accepts self.old self.new
            (asks.Pass name.now) r.0.items (asks.IsPassed (passed r.1))) }
        ensures words { IfOk result (λ r. r.0.items
            ≡ words_next generator.old (words_for (state_known self.old) name.now)) }
        ensures place { OnOk result (generator.new
            ≡ place_after generator.old (words_for (state_known self.old) name.now)) }
        ensures few { OnOk result (words_for (state_known self.old) name.now < 2 ^ 8) }
        ensures refused { IfErr result (IsRefusalOf self.old (asks.Pass name.now)
            (words_next generator.old (words_for (state_known self.old) name.now))) }
        ensures memory { IsErrOf result NodeFault.OutOfMemory → NameNeedsMemory self.old name.now }
        ensures err { OnErr result ((self.new ≡ self.old) × (generator.new ≡ generator.old)) }
    {
        let place = generator.place();
        let passed = self.pass_drawing(alloc, name, generator);
        if passed.is_err() {
            generator.set_place(place);
        }
        passed
    }

    /// Passes a point by its name as `pass_generating` does, without a reply of its own (`last_pass`),
    /// and answers the random draws. No text is copied.
    pub fn pass_point_generating(
        &mut self,
        alloc: Global,
        point: &Name,
        generator: &mut Generator,
    ) -> Result<Vec<u32>, NodeFault>
        ensures ok { IfOk result (λ words. Accepts self.old self.new (asks.Pass point.now)
            words.items (reply_to self.old (asks.Pass point.now) words.items)) }
        ensures last { IfOk result (λ words. option_map asks.IsPassed (last_passed self.new)
            ≡ Some (reply_to self.old (asks.Pass point.now) words.items)) }
        ensures words { IfOk result (λ words. words.items
            ≡ words_next generator.old (words_for (state_known self.old) point.now)) }
        ensures place { OnOk result (generator.new
            ≡ place_after generator.old (words_for (state_known self.old) point.now)) }
        ensures few { OnOk result (words_for (state_known self.old) point.now < 2 ^ 8) }
        ensures refused { IfErr result (IsRefusalOf self.old (asks.Pass point.now)
            (words_next generator.old (words_for (state_known self.old) point.now))) }
        ensures memory { IsErrOf result NodeFault.OutOfMemory → NameNeedsMemory self.old point.now }
        ensures err { OnErr result ((self.new ≡ self.old) × (generator.new ≡ generator.old)) }
    {
        let place = generator.place();
        let drawn = self.pass_point(alloc, point, generator);
        if drawn.is_err() {
            generator.set_place(place);
        }
        drawn
    }
}

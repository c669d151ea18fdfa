//! Calls with the random draws of a generator.

ghost use Rattle.std.specs.Prelude.{◌≡◌, ◌<◌, ◌^◌, [], IfOk, IfErr, OnErr, OnOk, false};
ghost use Rattle.node_core.specs.Applied.{TellsIfEmit};
ghost use Rattle.node_calls.specs.Asks.{ask_value, ask_value_first, reply_value};
ghost use Rattle.node_calls.specs.Told.{ask_told, is_pass};
ghost use Rattle.node_core.specs.Traces.{Accepts, IsRefusalOf};
ghost use Rattle.node_steps.specs.Words.{words_next, place_after};
ghost use Rattle.node_registry.specs.Words.{words_taken};

use node_core::{Ask, Generator, NodeCore, NodeFault, Reply};
use std::alloc::Global;

// Makes a call that is no pass, which takes no random draws.
fn call(core: &mut NodeCore, alloc: Global, ask: &Ask) -> Result<(Vec<u32>, Reply), NodeFault>
    requires { is_pass (ask_told ask.now) ≡ false }
    ensures ok { IfOk result (λ r. Accepts core.old core.new
        (ask_value core.old.config.nodes ask.now r.1) [] (reply_value core.old.config.nodes r.1)) }
    ensures words { IfOk result (λ r. r.0.items ≡ []) }
    ensures told { IfOk result (λ r. TellsIfEmit core.old (ask_told ask.now) r.1) }
    ensures refused { IfErr result
        (IsRefusalOf core.old (ask_value_first core.old.config.nodes ask.now) []) }
    ensures err { OnErr result (core.new ≡ core.old) }
{
    let reply = core.answer(alloc, ask, &[])?;
    Ok((Vec::new(alloc), reply))
}

/// Makes a call as `call_with_words` does, with an ask that goes into the trace.
pub(crate) fn submit_with_words(
    core: &mut NodeCore,
    generator: &mut Generator,
    alloc: Global,
    ask: Ask,
) -> Result<(Vec<u32>, Reply), NodeFault>
    ensures ok { IfOk result (λ r. Accepts core.old core.new
        (ask_value core.old.config.nodes ask r.1) r.0.items (reply_value core.old.config.nodes r.1)) }
    ensures words { IfOk result (λ r. r.0.items ≡ words_next generator.old
        (words_taken core.old (ask_value_first core.old.config.nodes ask))) }
    ensures place { OnOk result (generator.new ≡ place_after generator.old
        (words_taken core.old (ask_value_first core.old.config.nodes ask))) }
    ensures few { OnOk result
        (words_taken core.old (ask_value_first core.old.config.nodes ask) < 2 ^ 8) }
    ensures told { IfOk result (λ r. TellsIfEmit core.old (ask_told ask) r.1) }
    ensures refused { let asked = ask_value_first core.old.config.nodes ask in IfErr result
        (IsRefusalOf core.old asked (words_next generator.old (words_taken core.old asked))) }
    ensures err { OnErr result ((core.new ≡ core.old) × (generator.new ≡ generator.old)) }
{
    if ask.is_pass() {
        let answered = call_with_words(core, generator, alloc, &ask);
        drop(ask);
        return answered;
    }
    let reply = core.submit(alloc, ask, &[])?;
    Ok((Vec::new(alloc), reply))
}

/// Makes a call with the generator's next random draws, as many as it needs, and answers these
/// beside the reply.
pub(crate) fn call_with_words(
    core: &mut NodeCore,
    generator: &mut Generator,
    alloc: Global,
    ask: &Ask,
) -> Result<(Vec<u32>, Reply), NodeFault>
    ensures ok { IfOk result (λ r. Accepts core.old core.new
        (ask_value core.old.config.nodes ask.now r.1) r.0.items
        (reply_value core.old.config.nodes r.1)) }
    ensures words { IfOk result (λ r. r.0.items ≡ words_next generator.old
        (words_taken core.old (ask_value_first core.old.config.nodes ask.now))) }
    ensures place { OnOk result (generator.new ≡ place_after generator.old
        (words_taken core.old (ask_value_first core.old.config.nodes ask.now))) }
    ensures few { OnOk result
        (words_taken core.old (ask_value_first core.old.config.nodes ask.now) < 2 ^ 8) }
    ensures told { IfOk result (λ r. TellsIfEmit core.old (ask_told ask.now) r.1) }
    ensures refused { let asked = ask_value_first core.old.config.nodes ask.now in IfErr result
        (IsRefusalOf core.old asked (words_next generator.old (words_taken core.old asked))) }
    ensures err { OnErr result ((core.new ≡ core.old) × (generator.new ≡ generator.old)) }
{
    match ask {
        Ask::Pass { name } => {
            let (words, reply) = core.pass_generating(alloc, name, generator)?;
            Ok((words, Reply::Pass(reply)))
        }
        _ => call(core, alloc, ask),
    }
}

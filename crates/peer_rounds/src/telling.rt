//! What tells the peers of a served node.

ghost use Rattle.std.specs.Prelude.{◌≡◌, ◌≤◌, ◌+◌, ◌*◌, IfSome, MatchOption};
ghost use Rattle.command_line.specs.declared.reading.Rights.TheVariants.{Stay};
ghost use Rattle.peer_rounds.specs.Rounds.{most_calls, told_below};
ghost use Rattle.peer_rounds.specs.Sharing.{IsEarly};
ghost use Rattle.peer_rounds.specs.Told.{IsToldOver};

use crate::host::Host;
use crate::round::{Early, Rounds};
use crate::rounds::tell_over;
use crate::service::Service;
use crate::targets::wire_to;
use command_line::GossipOptions;
use http_peers::Peers;
use http_wire::{HttpWire, Key};
use node_registry::{Label, Registry, Seat};
use part_files::RecordingWire;
use part_keeper::Recorder;

/// The wire over which the peers were told, as it was left.
#[derive(Drop)]
pub enum Over<'a, L: Label, R: Drop> {
    /// None could be made.
    Nothing,
    /// Messages leave as they are made.
    Wire(HttpWire<R>),
    /// A message leaves once the calls before it are written.
    Recorded(RecordingWire<'a, L, HttpWire<R>>),
}

/// What telling the peers came to.
#[derive(Drop)]
pub struct Told<'a, 's, L: Label, R: Drop> {
    pub rounds: Rounds<'s>,
    pub over: Over<'a, L, R>,
}

/// Tells the peers that are named over HTTP, with the key, if there is one: so many rounds from this seat, with a
/// rest between two, or fewer, where the service ends before. Each round shares rights first, where they are to
/// follow demand, and then tells only news, and only who is reached; but who asked (`heard`) is told anyway, and
/// who is to be heard before calls are made is asked to tell. With a recorder of the node's part the lines of its
/// calls are written before a message leaves. Where the wire can't be made, none is told.
pub fn tell_peers<'a, 's, L, R>(
    rt: &R,
    registry: &'a Registry<L>,
    recorder: Option<&'a Recorder<L>>,
    seat: &mut Seat<L>,
    telling: &GossipOptions,
    heard: &Peers,
    key: Option<Key>,
    service: &'s Service,
) -> Told<'a, 's, L, R>
where
    L: Label,
    R: Host,
    ensures over { IsToldOver recorder.entry
        (told_below L.config.node L.config.nodes telling.now.peers.items)
        L.config L.seed L.keeps L.parts telling.now.rights seat.old seat.new result }
    ensures all { MatchOption result.rounds.early (result.rounds.made ≡ telling.now.rounds)
        (IsEarly service.now.end.id) }
    ensures loss { IfSome result.rounds.loss (λ token. token.of ≡ service.now.loss.id) }
    ensures few { telling.now.rights ≡ Stay
        → seat.new.calls ≤ seat.old.calls + telling.now.rounds * most_calls L.config }
{
    let mut wire = match wire_to(rt, &telling.peers, key) {
        Ok(wire) => wire,
        Err(why) => {
            return Told {
                rounds: Rounds::none(Some(Early::NoWire(why))),
                over: Over::Nothing,
            };
        }
    };
    match recorder {
        Some(recorder) => {
            let mut wire = RecordingWire::new(wire, registry, recorder);
            let rounds = tell_over(rt, registry, seat, &mut wire, telling, heard, service);
            Told {
                rounds,
                over: Over::Recorded(wire),
            }
        }
        None => {
            let rounds = tell_over(rt, registry, seat, &mut wire, telling, heard, service);
            Told {
                rounds,
                over: Over::Wire(wire),
            }
        }
    }
}

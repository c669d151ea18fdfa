//! The texts of the faults of a node: none has more than 128 bytes, which is the room that a reply of
//! HTTP has.

use actions::{ActionFault, SettingFault};
use message_format::WireFault;
use node_calls::{NodeFault, TextFault};
use std::alloc::{AllocError, Global};
use std::test::Fail;

const LONGEST_ACTION_FAULT: ActionFault = ActionFault::BadByte { offset: usize::MAX };

/// Each fault of a node, with the greatest numbers.
const FAULTS: &[NodeFault] = &[
    NodeFault::TraceFull,
    NodeFault::BadName,
    NodeFault::BadActions(TextFault::Actions(LONGEST_ACTION_FAULT)),
    NodeFault::BadActions(TextFault::Setting(SettingFault::BadActions {
        entry: u16::MAX,
        fault: LONGEST_ACTION_FAULT,
    })),
    NodeFault::TooManyPoints,
    NodeFault::ClockFull,
    NodeFault::NotSet,
    NodeFault::NoSuchTerm,
    NodeFault::NotCounted,
    NodeFault::BadNode,
    NodeFault::ZeroAmount,
    NodeFault::TooFewRights { have: u64::MAX },
    NodeFault::CellFull,
    NodeFault::BadWords { need: u8::MAX },
    NodeFault::BadMessage(WireFault::NotCanonical { offset: usize::MAX }),
    NodeFault::NotForMe,
    NodeFault::OwnAhead,
    NodeFault::AckAhead,
    NodeFault::Overspent,
    NodeFault::BadConfig,
    NodeFault::OutOfMemory,
];

fn is_short(alloc: Global, fault: NodeFault) -> Result<bool, AllocError> {
    Ok(format!(in alloc; "{fault}")?.len() <= 128)
}

#[test]
fn longest_fault_texts(rt: HostRuntime) -> Result<(), Fail> {
    for fault in FAULTS {
        let short = is_short(rt.alloc(), *fault)?;
        assert!(rt; short);
    }
    Ok(())
}

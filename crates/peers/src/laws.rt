//! What the definitions promise. Nothing here runs.

ghost use Rattle.std.specs.Prelude.{◌≡◌, ◌+◌, ◌++◌, ℕ, List, Option, Some, None, MatchOption};
ghost use Rattle.std.specs.Prelude.{codes, length, take};
ghost use Rattle.message_format.specs.Messages.{MessageValue};
ghost use Rattle.message_format.specs.Spelling.{message_bytes};
ghost use Rattle.node_calls.specs.declared.fault.NodeFault.{NodeFault};
ghost use Rattle.node_calls.specs.FaultText.{node_fault_text};
ghost use Rattle.gossip_pace.specs.Senders.{sender_of};
ghost use Rattle.report_text.specs.Peers.{code_name};
ghost use Rattle.peers.specs.declared.code.Outcome.{Outcome};
ghost use Rattle.peers.specs.declared.heard.Cluster.{Cluster};
ghost use Rattle.peers.specs.declared.heard.Row.{Row};
ghost use Rattle.peers.specs.Codes.{code_of};
ghost use Rattle.peers.specs.Heard.{first_unheard, noted};

/// The sender that is read of a message is the one that it names.
pub fn sender_is_read()
    ensures { (m : MessageValue) → sender_of (message_bytes m) ≡ Some m.from }
{}

/// Where each other node was heard, none is waited for again, whatever comes.
pub fn hearing_lasts()
    ensures { (cluster : Cluster) (rows : List Row) (sender : Option ℕ) (outcome : Outcome) (now : ℕ)
        → first_unheard cluster rows ≡ None
        → first_unheard cluster (noted cluster rows sender outcome now) ≡ None }
{}

/// The code under which a rejected message is counted is the one with which the fault's text begins.
pub fn code_is_its_own()
    ensures { (fault : NodeFault) → MatchOption (code_of fault) (Unit {0}) (λ code.
        take (length (code_name code) + 1) (node_fault_text fault)
        ≡ code_name code ++ codes " ") }
{}

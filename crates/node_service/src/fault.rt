//! Why a node isn't served, or no longer.

use crate::key_file::KeyFault;
use http_serve::ServeFault;
use node_core::NodeFault;
use part_files::OpenFault;
use std::error::Error;
use std::{fmt, io};

/// Why a node isn't served, or no longer. `Display` shows the text of the fault that it holds.
#[derive(Debug, Drop)]
pub enum ServiceFault {
    /// The node can't be made, or its first points can't be set.
    Node(NodeFault),
    /// Its port can't be listened on, or no more clients can be let in.
    Serve(ServeFault),
    /// It can't be said where it listens.
    Output(io::Error),
    /// It doesn't go on from its part.
    Part(OpenFault),
    /// The file of its key has none.
    Key(KeyFault),
    /// Its first points couldn't be recorded.
    NotRecorded,
}

impl fmt::Display for ServiceFault {
    ghost use Rattle.node_service.specs.FaultText.{service_fault_text};

    ghost output = { λ e. service_fault_text e };

    fn fmt<W: fmt::Write>(&self, f: &mut fmt::Formatter<W>) -> fmt::Result {
        match self {
            ServiceFault::Node(fault) => write!(f, "{fault}"),
            ServiceFault::Serve(fault) => write!(f, "{fault}"),
            ServiceFault::Output(error) => write!(f, "{error}"),
            ServiceFault::Part(fault) => write!(f, "{fault}"),
            ServiceFault::Key(fault) => write!(f, "{fault}"),
            ServiceFault::NotRecorded => f.write_str("V6 NotRecorded"),
        }
    }
}

impl Error for ServiceFault {}

impl From<NodeFault> for ServiceFault {
    ghost use Rattle.std.specs.Prelude.{◌≡◌};
    ghost use Rattle.node_service.specs.declared.fault.ServiceFault.TheVariants.{Node};

    ghost from_gives = { λ fault e. e ≡ Node fault };

    fn from(fault: NodeFault) -> ServiceFault {
        ServiceFault::Node(fault)
    }
}

impl From<ServeFault> for ServiceFault {
    ghost use Rattle.std.specs.Prelude.{◌≡◌};
    ghost use Rattle.node_service.specs.declared.fault.ServiceFault.TheVariants.{Serve};

    ghost from_gives = { λ fault e. e ≡ Serve fault };

    fn from(fault: ServeFault) -> ServiceFault {
        ServiceFault::Serve(fault)
    }
}

impl From<io::Error> for ServiceFault {
    ghost use Rattle.std.specs.Prelude.{◌≡◌};
    ghost use Rattle.node_service.specs.declared.fault.ServiceFault.TheVariants.{Output};

    ghost from_gives = { λ error e. e ≡ Output error };

    fn from(error: io::Error) -> ServiceFault {
        ServiceFault::Output(error)
    }
}

impl From<KeyFault> for ServiceFault {
    ghost use Rattle.std.specs.Prelude.{◌≡◌};
    ghost use Rattle.node_service.specs.declared.fault.ServiceFault.TheVariants.{Key};

    ghost from_gives = { λ fault e. e ≡ Key fault };

    fn from(fault: KeyFault) -> ServiceFault {
        ServiceFault::Key(fault)
    }
}

impl From<OpenFault> for ServiceFault {
    ghost use Rattle.std.specs.Prelude.{◌≡◌};
    ghost use Rattle.node_service.specs.declared.fault.ServiceFault.TheVariants.{Part};

    ghost from_gives = { λ fault e. e ≡ Part fault };

    fn from(fault: OpenFault) -> ServiceFault {
        ServiceFault::Part(fault)
    }
}

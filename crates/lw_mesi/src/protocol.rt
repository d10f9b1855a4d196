//! The coherence protocols: by name, and as types.
ghost use Rattle.std.specs.Prelude.{◌≡◌, MatchOption};
ghost use Rattle.lw_base.specs.NoParse.{HoldsOfNothing};
ghost use Rattle.lw_mesi.specs.declared.protocol.Protocol.{Protocol};
ghost use Rattle.lw_mesi.specs.declared.protocol.Protocol.TheVariants.{Mesi, Moesi};
ghost use Rattle.lw_mesi.specs.Protocols.{protocol_name};

/// The protocols of snooping caches.
#[derive(Clone, Copy, PartialEq, Eq)]
pub enum Protocol {
    /// A copy is modified, exclusive, shared or invalid.
    Mesi,
    /// A copy may also be owned: dirty, and possibly shared.
    Moesi,
}

impl Protocol {
    /// Returns the protocol with this name, in small letters, if there is one.
    pub fn from_name(name: &str) -> Option<Protocol>
        ensures { MatchOption result (HoldsOfNothing (λ p. protocol_name p ≡ name.now)) (λ p. protocol_name p ≡ name.now) }
    {
        match name {
            "mesi" => Some(Protocol::Mesi),
            "moesi" => Some(Protocol::Moesi),
            _ => None,
        }
    }
}

/// A protocol as a type.
pub trait ProtocolType {
    /// The protocol that the type represents.
    ghost protocol: { Protocol };

    /// Returns the protocol that the type represents.
    fn protocol() -> Protocol
        ensures { result ≡ protocol };
}

/// The MESI protocol as a type.
#[derive(Clone, Copy)]
pub struct MesiProtocol;

impl ProtocolType for MesiProtocol {
    ghost protocol = { Mesi };

    /// Returns MESI.
    fn protocol() -> Protocol {
        Protocol::Mesi
    }
}

/// The MOESI protocol as a type.
#[derive(Clone, Copy)]
pub struct MoesiProtocol;

impl ProtocolType for MoesiProtocol {
    ghost protocol = { Moesi };

    /// Returns MOESI.
    fn protocol() -> Protocol {
        Protocol::Moesi
    }
}

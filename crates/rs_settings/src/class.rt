//! Classes of services.

ghost use Rattle.std.specs.Prelude.{◌≡◌};
ghost use Rattle.rs_settings.specs.Values.{is_server};
ghost use Rattle.rs_settings.specs.Shared.{is_network};

/// What a service drives: block devices, character devices, network devices, or none.
///
/// MINIX 3 has block and character drivers, found by major numbers, network drivers, found by ports, and servers.
#[derive(Clone, Copy, PartialEq, Eq)]
pub enum Class {
    Block,
    Character,
    Network,
    Server,
}

impl Class {
    pub(crate) fn is_server(self) -> bool
        ensures { result ≡ is_server self }
    {
        match self {
            Class::Server => true,
            Class::Block | Class::Character | Class::Network => false,
        }
    }

    pub(crate) fn is_network(self) -> bool
        ensures { result ≡ is_network self }
    {
        match self {
            Class::Network => true,
            Class::Block | Class::Character | Class::Server => false,
        }
    }
}

//! Names, numbers of clients and services, and the quantities that have a limit.

/// The SHA-256 (FIPS 180-4) of some bytes.
#[derive(Clone, Copy, Debug, PartialEq, Eq, PartialOrd, Ord)]
pub struct Name(pub [u8; 32]);

/// The number of a client, from 0, in the order of the configuration.
#[derive(Clone, Copy, Debug, PartialEq, Eq, PartialOrd, Ord)]
pub struct ClientId(pub u32);

/// The number of a service, from 0, in the order of the configuration.
#[derive(Clone, Copy, Debug, PartialEq, Eq, PartialOrd, Ord)]
pub struct ServiceId(pub u32);

/// What has a limit. `docs/FORMATS.md` has the numbers.
#[derive(Clone, Copy, Debug, PartialEq, Eq)]
pub enum Quantity {
    Service,
    Clients,
    Path,
    Part,
    Levels,
    File,
    Files,
    Total,
    Object,
    Position,
    Round,
    Number,
    Generation,
    Input,
    Events,
    Asked,
}

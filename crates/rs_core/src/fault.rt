//! Why RS refuses an event, or can't begin.

use thiserror::Error;

/// Why an event is refused, in the order of judgement.
#[derive(Clone, Copy, Debug, PartialEq, Eq, Error)]
pub enum RsFault {
    /// The tick is below that of the last accepted event.
    #[error("the tick is below the last one")]
    TickBack,
    /// The tick is above 2^62.
    #[error("the tick is too great")]
    Worn,
    /// No service of the settings has the label.
    #[error("no service has the label")]
    UnknownLabel,
    /// The cause of a death isn't 1 to 6.
    #[error("no cause of death has the number")]
    BadCause,
    /// The service runs, or waits for its next start.
    #[error("the service is up already")]
    AlreadyUp,
    /// The service doesn't run.
    #[error("the service isn't up")]
    NotUp,
    /// No service runs under the endpoint.
    #[error("no service is up with the endpoint")]
    OldEndpoint,
    /// A start would need a generation above 2097151.
    #[error("all generations are spent")]
    GenerationsSpent,
    /// As many services are up as there are slots, and the event stops none.
    #[error("no slot is free")]
    NoSlot,
    /// RS is out of memory for the actions.
    #[error("out of memory")]
    NoRoom,
}

/// Why RS can't begin.
#[derive(Clone, Copy, Debug, PartialEq, Eq, Error)]
pub enum NewFault {
    /// The next generation, or the first slot, is out of its range.
    #[error("the next generation is out of its range")]
    OutOfRange,
    /// The states can't be allocated.
    #[error("out of memory")]
    NoRoom,
}

/// Why RS doesn't take other settings, in the order of judgement.
#[derive(Clone, Copy, Debug, PartialEq, Eq, Error)]
pub enum RenewFault {
    /// The settings have fewer slots than those in force.
    #[error("fewer slots than before")]
    FewerSlots,
    /// The last slot would be above 1023.
    #[error("the last slot is out of its range")]
    OutOfRange,
    /// The service with this index of the settings in force runs, or waits for its next start, and the new settings have
    /// none with its label.
    #[error("a service that is left out is still up")]
    StillUp(usize),
    /// The states can't be allocated.
    #[error("out of memory")]
    NoRoom,
}

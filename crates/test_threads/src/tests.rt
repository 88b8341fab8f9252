//! What no contract says: that no slot is lost, that nobody is kept away for good, that answers given at once have an
//! order, and what a reader meets that comes between the steps of a publisher.
mod closings;
mod gated;
mod gates;
mod orders;
mod readings;
mod schedules;
mod seats;
mod storms;

//! What a seat knows. No value of it is made when the program runs.
use pmsi_model::Job;
use std::collections::LinkedList;

pub struct View {
    pub job: Job,
    /// Whether the bus keeps the actions of all slots.
    pub keeps: bool,
    /// The number of the seat's core.
    pub number: u64,
    /// The core's slots that are over.
    pub count: u64,
    /// How often the seat loaded the turn, and what the last load gave.
    pub loads: u64,
    pub seen: u64,
    /// Whether the seat has the bus, and whether it has stored the record of its slot.
    pub holding: bool,
    pub stored: bool,
    /// For the seat of core 0: how many seats were made, and the numbers of those that were joined into it.
    pub made: u64,
    pub joined: LinkedList<u64>,
    /// The seat was joined into that of core 0.
    pub spent: bool,
}

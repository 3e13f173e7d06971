// Tickets on a card: a record read as a ticket, what stays unread behind it, and a whole card checked.
#![tactic(auto)]

use ticket_kinds::Ticket;

pub mod card;
mod fields;
pub mod reader;

// What reading finds: a ticket, and how many bytes its record takes.
#[derive(Clone, Copy)]
pub struct Reading {
    pub ticket: Ticket,
    pub taken: usize,
}

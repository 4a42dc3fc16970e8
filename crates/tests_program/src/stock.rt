//! The guides and orders of the libraries, handed in together: lines choose among them.
use crate::outcomes::{Outcome, run_with};
use palm_agenda::{LastOrder, Order, RotateOrder};
use palm_base::NoMemory;
use palm_guide::{FirstGuide, Guide, MostConflicts, SmallestGuide};
use std::alloc::Global;

/// For how many variables the guide of the most conflicts has room.
const ROOM: u32 = 32;

/// The lines that choose each guide with each order.
pub const CHOICES: [&str; 6] = [
    "guide 1\norder 1\n",
    "guide 1\norder 2\n",
    "guide 2\norder 1\n",
    "guide 2\norder 2\n",
    "guide 3\norder 1\n",
    "guide 3\norder 2\n",
];

/// How `run` ends on the text with these guides, and with two orders in boxes: that of the last one, and the one that goes
/// round.
pub fn outcome_with_two_orders<G: Guide>(
    alloc: Global,
    text: &[u8],
    guides: Vec<G>,
) -> Result<Outcome, NoMemory> {
    let mut orders: Vec<Box<dyn Order>> = Vec::new(alloc);
    orders.push(Box::new(alloc, LastOrder::new())?)?;
    orders.push(Box::new(alloc, RotateOrder::new())?)?;
    run_with(alloc, text, guides, orders)
}

/// How a session of version 2 ends in which these lines choose among the guides of the first variable, of the smallest domain and
/// of the most conflicts, and among these orders, and others follow.
pub fn outcome_by(alloc: Global, choice: &str, lines: &str) -> Result<Outcome, NoMemory> {
    let mut text = String::from_str(alloc, "palm 2\n")?;
    text.push_str(choice)?;
    text.push_str(lines)?;
    let mut guides: Vec<Box<dyn Guide>> = Vec::new(alloc);
    guides.push(Box::new(alloc, FirstGuide::new())?)?;
    guides.push(Box::new(alloc, SmallestGuide::new())?)?;
    guides.push(Box::new(alloc, MostConflicts::new(alloc, ROOM)?)?)?;
    outcome_with_two_orders(alloc, text.as_bytes(), guides)
}
